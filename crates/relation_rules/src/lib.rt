// Relation texts ("Derive conditions in the plugin"): the grammar, the tree of a text, its truth and the names that it derives, as definitions in specs/, and the
// promises about them in proofs/. Nothing here computes.
#![tactic(auto)]

// A price with derived names: as a price's answer, and the place of a refusal that has one, counted from 1.
#[repr(C)]
#[derive(Clone, Copy)]
pub struct DerivedAnswer {
    pub unit: i64,
    pub total: i64,
    pub lines: u64,
    pub place: u64,
    pub unused: u32,
    pub unused_count: u8,
    pub number: u8,
    pub currency: [u8; 3],
}
