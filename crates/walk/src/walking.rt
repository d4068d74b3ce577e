//! Walks: started at an entry or on the hull, stepped from either end.
ghost use Rattle.std.specs.Prelude.{◌≡◌};
ghost use Rattle.links.specs.Links.{halves};
ghost use Rattle.preset_map.specs.MapLinks.{links_of};
ghost use Rattle.walk.specs.Walking.{back_after, back_answer, between, fresh, front_after, front_answer, ready};
ghost use Rattle.walk.specs.Starting.{start_at, walk_at};

use crate::handles::has_half;
use crate::reader::{Ends, Walk};
use crate::steps::NextBackFn;
use entry::NoRecord;
use links::NONE;
use preset_map::{Map, Records};

impl Walk {
    /// A walk from one half up to another: nothing is left where they have met.
    fn between(current: u32, last: u32) -> Walk
        ensures { result ≡ between current last }
    {
        Walk {
            left: (current != last).then_some(Ends { current, last }),
        }
    }

    /// The ends, if something is left and the map has both halves.
    fn ready(self, map: &Map<'_>) -> Option<Ends>
        ensures { result ≡ ready (halves (links_of map.now)) self }
    {
        let ends = self.left?;
        (has_half(map, ends.current) && has_half(map, ends.last)).then_some(ends)
    }

    /// Hands out the half in front, or none; moves forward.
    pub fn next<N: NextBackFn>(&mut self, map: &Map<'_>) -> Option<u32>
        ensures answer { let m = links_of map.now in result ≡ front_answer (N.NextBackFn.step m) (N.NextBackFn.back m) (halves m) self.old }
        ensures reader { let m = links_of map.now in self.new ≡ front_after (N.NextBackFn.step m) (N.NextBackFn.back m) (halves m) self.old }
    {
        let ends = self.ready(map)?;
        *self = Walk::between(N::next(map, ends.current), ends.last);
        Some(ends.current)
    }

    /// Moves the end back, and hands out the half that it reaches, or none.
    pub fn next_back<N: NextBackFn>(&mut self, map: &Map<'_>) -> Option<u32>
        ensures answer { let m = links_of map.now in result ≡ back_answer (N.NextBackFn.step m) (N.NextBackFn.back m) (halves m) self.old }
        ensures reader { let m = links_of map.now in self.new ≡ back_after (N.NextBackFn.step m) (N.NextBackFn.back m) (halves m) self.old }
    {
        let ends = self.ready(map)?;
        let handed = N::next_back(map, ends.last);
        *self = Walk::between(ends.current, handed);
        Some(handed)
    }
}

/// A walk from a link: around its cycle, or empty where the link is none.
// None is a number only in the tables: it ends here.
fn walk_from(link: u32) -> Walk
    ensures { result ≡ start_at link }
{
    Walk {
        left: (link != NONE).then_some(Ends {
            current: link,
            last: link,
        }),
    }
}

/// A walk around entry v, from its `out_edge`; refused where v is not below n.
pub fn walk_entry(map: &Map<'_>, v: u32) -> Result<Walk, NoRecord<u32>>
    ensures { result ≡ walk_at v map.now.shape.n ((links_of map.now).out v) }
{
    if v >= map.shape().n {
        return Err(NoRecord { number: v });
    }
    Ok(walk_from(map.out_edge(v)))
}

/// A walk along the hull, from the `adjacent_edge` of face 0.
pub fn walk_hull(map: &Map<'_>) -> Walk
    ensures { result ≡ start_at ((links_of map.now).adj 0) }
{
    walk_from(map.adjacent_edge(0))
}
