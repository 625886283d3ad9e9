// The drawing's reader.
use drawing::Reader;
use drawing::reader::MOST_BYTES;
use refusal::{Fault, Part, Refusal};
use std::process::Abort;

// Reads up to ten records, and gives the end of the drawing or the refusal.
fn read_all(input: &[u8]) -> Result<(), Refusal> {
    let mut reader = Reader::open(input)?;
    for _ in 0..10 {
        if reader.next()?.is_none() {
            break;
        }
    }
    Ok(())
}

// Whether reading an input is refused with this fault of the record at this place, or, where none is named, is not refused.
fn is_read(input: &[u8], refused: Option<(Fault, usize)>) -> bool {
    match (read_all(input), refused) {
        (Ok(()), None) => true,
        (Err(refusal), Some((fault, place))) => {
            refusal == Refusal::new(fault, Part::Reader).at(place)
        }
        _ => false,
    }
}

#[test]
fn names_have_bytes_from_21_to_7e(rt: HostRuntime) {
    let wrong = Some((Fault::ByteNotAllowed, 7));
    for (letter, refused) in [(0x20, wrong), (0x21, None), (0x7e, None), (0x7f, wrong)] {
        let mut input = *b"H\x00\x02\x00\x00\x00\x01N\x00\x01ABCDEFGHE";
        input[17] = letter;
        assert!(rt; is_read(&input, refused));
    }
}

// A drawing with a record at each stage, and one byte more. A record begins at 0, 7, 8, 15, 22 and 29.
const STAGES: [u8; 30] =
    *b"H\x00\x02\x00\x00\x00\x01EC\x00\x00\x00\x00\x00\x01I\x00\x00\x00\x00\x00\x01L\x00\x00\x00\x00\x00\x01T";

// Whether the letter may not stand at the place.
fn is_out_of_place(place: usize, letter: u8) -> bool {
    let mut input = STAGES;
    if let Some(byte) = input.get_mut(place) {
        *byte = letter;
    }
    is_read(&input, Some((Fault::ByteNotAllowed, place)))
}

// None of the letters may stand at the place.
fn out_of_place(rt: &impl Abort, place: usize, letters: &[u8]) {
    for letter in letters {
        assert!(rt; is_out_of_place(place, *letter));
    }
}

#[test]
fn each_kind_out_of_its_place(rt: HostRuntime) {
    assert!(rt; is_read(&STAGES, None));
    out_of_place(&rt, 0, b"NRECIOLSDBT");
    out_of_place(&rt, 7, b"HCIOLSDBT");
    out_of_place(&rt, 8, b"HNRE");
    out_of_place(&rt, 15, b"HNRE");
    out_of_place(&rt, 22, b"HNREC");
    out_of_place(&rt, 29, b"HNRECIO");
}

// The fault of the drawing below, cut to so many bytes, and where the record begins that is not whole.
fn fault_when_cut(length: usize) -> Option<(Fault, usize)> {
    let place = match length {
        0..7 => 0,
        7..18 => 7,
        18..27 => 18,
        27 => 27,
        29..35 => 28,
        _ => return None,
    };
    Some((Fault::EndsEarly, place))
}

#[test]
fn a_drawing_may_end_after_its_table(rt: HostRuntime) {
    let input =
        *b"H\x00\x02\x00\x00\x00\x01N\x00\x01ABCDEFGHR\x00\x00\x00\x01\x00\x00\x00\x05EL\x00\x00\x00\x00\x00\x04TD";
    for cut in 0..37 {
        assert!(rt; is_read(&input[0..cut], fault_when_cut(cut)));
    }
}

#[test]
fn an_input_has_at_most_65536_bytes(rt: HostRuntime) {
    let input = [b'H'; MOST_BYTES + 1];
    assert!(rt; is_read(&input, Some((Fault::InputTooLong, 0))));
    let most = input.get(..MOST_BYTES).unwrap_or(&[]);
    assert!(rt; is_read(most, Some((Fault::ByteNotAllowed, 7))));
}
