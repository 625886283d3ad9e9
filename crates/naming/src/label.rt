ghost use Rattle.std.specs.Fmt.{WritesOnOk};
ghost use Rattle.std.specs.Prelude.{Some, encode_utf8_all};
ghost use Rattle.naming.specs.Keeping.{label_text};

use std::fmt;

// How a junction is shown: by its name, or else by its number.
#[derive(Clone, Copy)]
pub enum Label<'a> {
    Name(&'a [u8]),
    Number(u16),
}

// Writes the bytes of a name, each as the character with that number: so a name can always be written, whatever its bytes.
fn write_name<W: fmt::Write>(name: &[u8], f: &mut fmt::Formatter<W>) -> fmt::Result
    ensures { WritesOnOk W.Write.write_str_gives f.old result (encode_utf8_all name.now) f.new }
{
    for byte in name {
        f.write_char(char::from(*byte))?;
    }
    Ok(())
}

impl fmt::Display for Label<'_> {
    ghost output = { λ l. Some (label_text l) };

    fn fmt<W: fmt::Write>(&self, f: &mut fmt::Formatter<W>) -> fmt::Result {
        match self {
            Label::Name(name) => write_name(name, f),
            Label::Number(junction) => write!(f, "{junction}"),
        }
    }
}
