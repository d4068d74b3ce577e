//! The erasure of an entry as a definition over links, and what it keeps. Each function's contract is a theorem.
#![tactic(auto)]

ghost use Rattle.erasure.specs.Corpus.{SameAsRust};
ghost use Rattle.erasure.specs.Faulty.{FaultyPorts};
ghost use Rattle.erasure.specs.Inside.{Fills};
ghost use Rattle.erasure.specs.Keeps.{LineKeepsSound, InsideKeepsSound, HullKeepsSound, KeepsSound};
ghost use Rattle.erasure.specs.Region.{Legalizes};
ghost use Rattle.erasure.specs.Worked.{WorkedErasures};

/// Four worked erasures.
pub fn worked_erasures_stands()
    ensures { WorkedErasures }
{}

/// The definition gives the tables of the Rust in 32 cases from small random maps.
pub fn same_as_rust_stands()
    ensures { SameAsRust }
{}

/// Three faults that a port can have break sound maps.
pub fn faulty_ports_stands()
    ensures { FaultyPorts }
{}

/// An entry inside leaves a hole, and the fan fills it.
pub fn fills_stands()
    ensures { Fills }
{}

/// The legalizing loop makes all edges in the hole legal, and changes nothing outside it but roots.
pub fn legalizes_stands()
    ensures { Legalizes }
{}

/// Where there is no inner face, the map without the entry is sound.
pub fn line_keeps_sound_stands()
    ensures { LineKeepsSound }
{}

/// So is a map without an entry that lay inside.
pub fn inside_keeps_sound_stands()
    ensures { InsideKeepsSound }
{}

/// An erasure keeps every map sound, if it does where the entry is on the hull.
pub fn only_hull_is_left_stands()
    ensures { HullKeepsSound → KeepsSound }
{}
