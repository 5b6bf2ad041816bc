// What a run over files is made of.

// The bytes of the listing, the trays and the results as they were read, the text of the state, and the budget.
#[derive(Clone, Copy)]
pub struct Inputs<'a> {
    pub listing: &'a [u8],
    pub trays: &'a [u8],
    pub results: &'a [u8],
    pub state: &'a [u8],
    pub budget: &'a [u8],
}
