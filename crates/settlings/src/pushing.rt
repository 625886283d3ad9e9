// Pushing a route by the public calls `reach` and `carry`, with steps as they are defined: step 2k goes along reach k
// from its tail to its head, step 2k + 1 goes back along it.
use network::Network;
use refusal::Refusal;

// How much more a step can take: along its reach what is left of the limit, back what is carried. 0 where there is no such
// reach.
fn headroom<N: Network>(net: &N, step: u16) -> u32 {
    match net.reach(usize::from(step / 2)) {
        Ok(reach) if step % 2 == 0 => reach.limit - reach.carried,
        Ok(reach) => reach.carried,
        Err(_) => 0,
    }
}

// The least headroom of some steps; 0 where there are none.
fn least_headroom<N: Network>(net: &N, steps: &[u16]) -> u32 {
    let mut least = if steps.is_empty() { 0 } else { u32::MAX };
    for step in steps {
        least = least.min(headroom(net, *step));
    }
    least
}

// Lets so many litres more go along a step.
fn shift<N: Network>(net: &mut N, step: u16, litres: u32) -> Result<(), Refusal> {
    let k = usize::from(step / 2);
    let carried = net.reach(k)?.carried;
    let amount = if step % 2 == 0 {
        carried.saturating_add(litres)
    } else {
        carried.saturating_sub(litres)
    };
    net.carry(k, amount)
}

// Lets the least headroom of some steps more go along each of them, and answers how much that is; 0 where a step refuses.
pub fn push<N: Network>(net: &mut N, steps: &[u16]) -> u32 {
    let litres = least_headroom(net, steps);
    let mut pushed = litres;
    for step in steps {
        if shift(net, *step, litres).is_err() {
            pushed = 0;
        }
    }
    pushed
}
