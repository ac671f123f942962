// The house trace file (rules F1 to F5): the counts that reading one answers. The format and what each file is read as
// are definitions (specs/Format.antt, specs/Decoding.antt), and so is the encoder that the reader is proved
// to undo (specs/Encoding.antt).
#![tactic(auto)]

// The two counts of an accepted file (rule F4).
#[derive(Clone, Copy, Debug, PartialEq, Eq)]
pub struct Counts {
    pub capacities: usize,
    pub references: usize,
}
