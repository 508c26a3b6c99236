use ct_sd::DrawMark;
use mc_base::AtomId;

/// How a bond is drawn, and its end that is written first: an up, down or wavy mark begins there.
#[derive(Clone, Copy, Debug, PartialEq, Eq)]
pub struct Wedge {
    pub mark: DrawMark,
    pub narrow: AtomId,
}
