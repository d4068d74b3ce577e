// What a script does to a draft and shows of a map.
ghost use Rattle.std.specs.Prelude.{◌≡◌, ℕ, ◌<◌, ◌≤◌, IfOk};
ghost use Rattle.pad.specs.Troubles.{OnBadLine};

use crate::command::Record;
use crate::complaint::{Complaint, Trouble};
use crate::script::Words;
use crate::shown::{Link, Outcome};
use links::{CheckFault, Shape};
use preset_map::{Draft, HalfLinks, Records};
use std::io;

/// The most numbers that a script's tables may take.
const MOST: usize = 4194304;

/// Tables that a script asks for: their shape, and how many numbers the slice has.
#[derive(Clone, Copy)]
pub struct Request {
    pub shape: Shape,
    pub len: usize,
}

/// `draft N E F [TN TE TF [LEN]]`
pub fn read_request<'a>(words: &mut Words<'a>) -> Result<Request, Complaint<'a>>
    ensures most { IfOk result (λ request. request.len ≤ MOST) }
    ensures too_long { (len : ℕ) → result ≡ Err (Complaint.TooLong len) → MOST < len }
{
    let n = words.read::<u32>("number of entries")?;
    let e = words.read::<u32>("number of edges")?;
    let f = words.read::<u32>("number of faces")?;
    let entries = words.read_or("length of the entry table", n)?;
    let edges = words.read_or("length of the edge table", e.saturating_add(n))?;
    let faces = words.read_or("length of the face table", f.saturating_add(n))?;
    let shape = Shape {
        n,
        e,
        f,
        entries,
        edges,
        faces,
    };
    let len = words.read_or("length of the slice", shape.size())?;
    words.end()?;
    if len > MOST {
        return Err(Complaint::TooLong(len));
    }
    Ok(Request { shape, len })
}

/// `out K H`, `half H NEXT PREV FACE ORIGIN` and `face K H`.
pub fn write_record<'a>(
    rt: &HostRuntime,
    record: Record,
    words: &mut Words<'a>,
    draft: &mut Draft<'_>,
) -> Result<(), Trouble<'a>>
    ensures shape { draft.new.shape ≡ draft.old.shape }
    ensures bad_line { OnBadLine result (draft.new ≡ draft.old) }
{
    let (number, done) = match record {
        Record::Out => {
            let v = words.read::<u32>("entry number")?;
            let Link(out_edge) = words.read("out_edge")?;
            words.end()?;
            (v, draft.set_out_edge(v, out_edge))
        }
        Record::Half => {
            let h = words.read::<u32>("half number")?;
            let Link(next) = words.read("next")?;
            let Link(prev) = words.read("prev")?;
            let Link(face) = words.read("face")?;
            let Link(origin) = words.read("origin")?;
            words.end()?;
            let links = HalfLinks {
                next,
                prev,
                face,
                origin,
            };
            (h, draft.set_half(h, links))
        }
        Record::Face => {
            let k = words.read::<u32>("face number")?;
            let Link(adjacent_edge) = words.read("adjacent_edge")?;
            words.end()?;
            (k, draft.set_adjacent_edge(k, adjacent_edge))
        }
    };
    println!(rt; "{record} {number}: {}", Outcome(done.map(|()| "written")))?;
    Ok(())
}

/// Tells what check answers.
pub fn tell_check(rt: &HostRuntime, verdict: Result<(), CheckFault>) -> io::Result<()> {
    println!(rt; "check: {}", Outcome(verdict.map(|()| "accepted")))
}

/// `show`: counts, places, links.
pub fn show<T: Records>(rt: &HostRuntime, tables: &T) -> io::Result<()> {
    let shape = tables.shape();
    println!(rt; "show: {}", shape)?;
    for v in 0..shape.n {
        let (x, y) = (Link(tables.x(v)), Link(tables.y(v)));
        println!(rt;
            "  entry {v}: place {x} {y}, out_edge {}",
            Link(tables.out_edge(v))
        )?;
    }
    for h in 0..shape.e.saturating_mul(2) {
        let (next, prev) = (Link(tables.next(h)), Link(tables.prev(h)));
        let (face, origin) = (Link(tables.face(h)), Link(tables.origin(h)));
        println!(rt; "  half {h}: next {next} prev {prev} face {face} origin {origin}")?;
    }
    for k in 0..shape.f {
        println!(rt;
            "  face {k}: adjacent_edge {}",
            Link(tables.adjacent_edge(k))
        )?;
    }
    Ok(())
}
