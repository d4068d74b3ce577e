//! The reader of a walk: plain numbers, lent the map at each step.

/// The half in front, and the half behind the last one.
#[derive(Clone, Copy, PartialEq, Eq, Debug)]
pub(crate) struct Ends {
    pub(crate) current: u32,
    pub(crate) last: u32,
}

/// The ends of what is left of a walk; none once they have met.
#[derive(Clone, Copy, PartialEq, Eq, Debug)]
pub struct Walk {
    pub(crate) left: Option<Ends>,
}
