//! Each function's contract is a theorem.
ghost use Rattle.preset_map.specs.Updates.{WritesUpdate};

/// A write of a draft is an update of one record's links, and of nothing else.
pub fn writes_update_stands()
    ensures { WritesUpdate }
{}
