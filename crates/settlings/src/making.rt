// Making the network of a form.
use crate::drawing::{carry_some, lay_drawn};
use crate::form::{Form, Kind};
use crate::laying::{lay_chain, lay_crossed, lay_dense, lay_grid, lay_matching, lay_tree};
use crate::plan::Plan;
use network::Row;
use table::Table;

// Lays the reaches of a network of a form.
fn lay(plan: &mut Plan<'_>, form: Form) {
    match form.kind {
        Kind::Chain => lay_chain(plan, form.scale),
        Kind::Grid => lay_grid(plan, form.scale),
        Kind::Matching => lay_matching(plan, form.scale),
        Kind::Tree => lay_tree(plan, form.scale),
        Kind::Dense => lay_dense(plan, form.scale),
        Kind::Crossed => lay_crossed(plan, form.scale),
        _ => lay_drawn(plan, form),
    }
}

// Makes a network of a form in these rows, whatever they hold. The seed of the dice says what is drawn. The network
// begins dry, but for the kind Carrying.
pub fn make(form: Form, seed: u64, rows: &mut [Row]) -> Table<'_> {
    let mut plan = Plan::new(seed, rows);
    lay(&mut plan, form);
    let Plan { draft, mut dice } = plan;
    let mut table = draft.commission();
    if matches!(form.kind, Kind::Carrying) {
        carry_some(&mut table, &mut dice);
    }
    table
}
