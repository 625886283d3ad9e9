// Chambers: a layer over any network, which limits what passes a junction.
#![tactic(auto)]

pub mod chambers;

pub use chambers::Chambers;
