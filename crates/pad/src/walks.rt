// Walks that a script asks for.
use crate::complaint::{Complaint, Misspelled, Trouble};
use crate::script::Words;
use preset_map::Map;
use std::io;
use std::str::FromStr;
use walk::{Hull, NextBackFn, Rotation, Walk, walk_entry, walk_hull};

/// An end of a walk.
#[derive(Clone, Copy)]
enum End {
    Front,
    Back,
}

/// The two ends from which a walk is stepped in turn.
#[derive(Clone, Copy)]
struct Way([End; 2]);

impl FromStr for Way {
    type Err = Misspelled;

    ghost use Rattle.pad.specs.Spelling.{ReadsWay};

    ghost from_str_gives = { ReadsWay };

    fn from_str(word: &str) -> Result<Way, Misspelled> {
        match word {
            "back" => Ok(Way([End::Back, End::Back])),
            "both" => Ok(Way([End::Front, End::Back])),
            _ => Err(Misspelled),
        }
    }
}

/// The last word of a walk: nothing, `back` or `both`.
fn read_way<'a>(words: &mut Words<'a>) -> Result<Way, Complaint<'a>> {
    let way = words.read_or("way to walk", Way([End::Front, End::Front]))?;
    words.end()?;
    Ok(way)
}

/// The halves that a walk hands out, in order.
fn tell<N: NextBackFn>(
    rt: &HostRuntime,
    mut walk: Walk,
    map: &Map<'_>,
    Way(ends): Way,
) -> io::Result<()> {
    // No walk is as long as this bound, which shows that the loop ends.
    for end in ends.iter().cycle().take(u32::MAX as usize) {
        let step = match end {
            End::Front => walk.next::<N>(map),
            End::Back => walk.next_back::<N>(map),
        };
        match step {
            Some(h) => print!(rt; " {h}")?,
            None => break,
        }
    }
    println!(rt; "")
}

/// `walk K [back|both]`: the halves around an entry.
pub fn tell_entry<'a>(
    rt: &HostRuntime,
    words: &mut Words<'a>,
    map: &Map<'_>,
) -> Result<(), Trouble<'a>> {
    let v = words.read::<u32>("entry number")?;
    let way = read_way(words)?;
    match walk_entry(map, v) {
        Ok(start) => {
            print!(rt; "walk {v}:")?;
            tell::<Rotation>(rt, start, map, way)?;
        }
        Err(refused) => println!(rt; "walk {v}: refused, {refused}")?,
    }
    Ok(())
}

/// `hull [back|both]`: the halves along the hull.
pub fn tell_hull<'a>(
    rt: &HostRuntime,
    words: &mut Words<'a>,
    map: &Map<'_>,
) -> Result<(), Trouble<'a>> {
    let way = read_way(words)?;
    print!(rt; "hull:")?;
    tell::<Hull>(rt, walk_hull(map), map, way)?;
    Ok(())
}
