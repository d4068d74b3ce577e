//! Legal edges make empty faces: the two holes of an erased entry, flips and their measure. Each function's contract is a theorem.
#![tactic(auto)]

ghost use Rattle.delaunay.specs.Erased.{InnerStar, InnerOthers, HullChain, HullOthers, ErasedInside, ErasedHull, BorderLegal};
ghost use Rattle.delaunay.specs.Legal.{LegalIsEmpty, SoundIsLegal};
ghost use Rattle.delaunay.specs.Start.{RingStart, EarStep, RingEnd, ScanStep, StarIsMesh};
ghost use Rattle.delaunay.specs.Scan.{ScanNext, ScanBefore, ScanRest, ScanFlips, ScanEnd, ScanStarts};
ghost use Rattle.delaunay.specs.Statements.{Polygon, PolygonHalves, Inside, InsideHalves, Hull, HullHalves, Apex, Order, Flips, StayLegal, StayLeft, Volumes, HullVolumes, Falls, Ends};

/// Where each edge is legal, no vector of the ring is inside a face.
pub fn polygon_stands()
    ensures { Polygon }
{}

/// The same over halves.
pub fn polygon_halves_stands()
    ensures { PolygonHalves }
{}

/// The hole of an inner entry: its new faces turn left and are empty.
pub fn inside_stands()
    ensures { Inside }
{}

/// The same by halves.
pub fn inside_halves_stands()
    ensures { InsideHalves }
{}

/// The hole of an entry on the hull: its new faces are empty, and its new outer halves have all entries on their right.
pub fn hull_stands()
    ensures { Hull }
{}

/// The same by halves.
pub fn hull_halves_stands()
    ensures { HullHalves }
{}

/// The same with the erased entry as the apex of the ring.
pub fn apex_stands()
    ensures { Apex }
{}

/// A flip keeps the order of the ring.
pub fn order_stands()
    ensures { Order }
{}

/// A flip keeps the faces on the ring.
pub fn flips_stands()
    ensures { Flips }
{}

/// A flip leaves the edges legal that are not listed.
pub fn stay_legal_stands()
    ensures { StayLegal }
{}

/// A flip of an edge that is not legal keeps all faces turning left.
pub fn stay_left_stands()
    ensures { StayLeft }
{}

/// Faces in the order of the ring have volumes of at least 0 over the erased entry.
pub fn volumes_stands()
    ensures { Volumes }
{}

/// So on the hull.
pub fn hull_volumes_stands()
    ensures { HullVolumes }
{}

/// A flip lowers the sum of the volumes by exactly C of its four corners.
pub fn falls_stands()
    ensures { Falls }
{}

/// So flips end.
pub fn ends_stands()
    ensures { Ends }
{}

/// In a sound map the spokes of an inner entry are a star.
pub fn inner_star_stands()
    ensures { InnerStar }
{}

/// And every other entry is outside its old faces.
pub fn inner_others_stands()
    ensures { InnerOthers }
{}

/// In a sound map the spokes of an entry of the hull are a chain.
pub fn hull_chain_stands()
    ensures { HullChain }
{}

/// And every other entry is between its ends and outside its old faces.
pub fn hull_others_stands()
    ensures { HullOthers }
{}

/// A triangulation with legal edges is Delaunay.
pub fn legal_is_empty_stands()
    ensures { LegalIsEmpty }
{}

/// The edges of a sound map are legal.
pub fn sound_is_legal_stands()
    ensures { SoundIsLegal }
{}

/// The border of a hole is a hole with no face yet.
pub fn ring_start_stands()
    ensures { RingStart }
{}

/// A triangle that is cut off a hole keeps the order of the ring.
pub fn ear_step_stands()
    ensures { EarStep }
{}

/// Where a triangle is left of a hole, it is filled with faces on the ring.
pub fn ring_end_stands()
    ensures { RingEnd }
{}

/// A flip of the scan of the hull: one half takes the place of two across from the apex.
pub fn scan_step_stands()
    ensures { ScanStep }
{}

/// The star of an entry on the hull is a mesh, with the entry as its apex.
pub fn star_mesh_stands()
    ensures { StarIsMesh }
{}

/// In a sound map the hole of an inner entry, filled with legal edges, has faces that turn left and are empty.
pub fn erased_inside_stands()
    ensures { ErasedInside }
{}

/// In a sound map the hole of an entry on the hull, filled so, has empty faces, and its new outer halves have all entries on their right.
pub fn erased_hull_stands()
    ensures { ErasedHull }
{}

/// The star of an entry on the hull is where the scan starts.
pub fn scan_start_stands()
    ensures { ScanStarts }
{}

/// The scan of the hull goes on to the next half across from the apex.
pub fn scan_next_stands()
    ensures { ScanNext }
{}

/// Before it there is another, over an edge to the apex.
pub fn scan_before_stands()
    ensures { ScanBefore }
{}

/// Where they turn right, all do so far.
pub fn scan_rest_stands()
    ensures { ScanRest }
{}

/// Where they turn left, that edge is flipped, and takes their place.
pub fn scan_flip_stands()
    ensures { ScanFlips }
{}

/// At the end all turn right.
pub fn scan_end_stands()
    ensures { ScanEnd }
{}

/// In a sound map the border of a hole stays legal.
pub fn border_legal_stands()
    ensures { BorderLegal }
{}
