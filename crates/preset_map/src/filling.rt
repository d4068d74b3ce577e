//! Filling a draft, one record at a time.
ghost use Rattle.std.specs.Prelude.{◌≡◌, ◌+◌, ◌≤◌, ◌&&◌, length, nat_le};
ghost use Rattle.preset_map.specs.Filling.{is_half_in, is_entry_in, is_face_in, with_half, with_out, with_face, with_values, wrote, asked};

use crate::draft::{Draft, HalfLinks};
use entry::NoRecord;
use links::Shape;

impl<'a> Draft<'a> {
    /// A draft over a slice; its numbers stay as they are.
    pub fn new(words: &'a mut [u32], shape: Shape) -> Draft<'a>
        ensures words { result.words.now ≡ words.old }
        ensures shape { result.shape ≡ shape }
    {
        Draft { words, shape }
    }

    /// Writes the `out_edge` of entry v.
    pub fn set_out_edge(&mut self, v: u32, out_edge: u32) -> Result<(), NoRecord<u32>>
        ensures outcome { result ≡ asked (is_entry_in self.old.words.now self.old.shape v) v }
        ensures words { self.new.words.now ≡ wrote result (with_out self.old.words.now v out_edge) self.old.words.now }
        ensures shape { self.new.shape ≡ self.old.shape }
    {
        self.write(v, v < self.shape.entries, 3 * v as usize + 2, [out_edge])
    }

    /// Writes the four links of half h.
    pub fn set_half(&mut self, h: u32, links: HalfLinks) -> Result<(), NoRecord<u32>>
        ensures outcome { result ≡ asked (is_half_in self.old.words.now self.old.shape h) h }
        ensures words { self.new.words.now ≡ wrote result (with_half self.old.words.now self.old.shape h links.next links.prev links.face links.origin) self.old.words.now }
        ensures shape { self.new.shape ≡ self.old.shape }
    {
        let in_table = (h as usize) < 2 * self.shape.edges as usize;
        let at = 3 * self.shape.entries as usize + 4 * h as usize;
        self.write(
            h,
            in_table,
            at,
            [links.next, links.prev, links.face, links.origin],
        )
    }

    /// Writes the `adjacent_edge` of face k.
    pub fn set_adjacent_edge(&mut self, k: u32, adjacent_edge: u32) -> Result<(), NoRecord<u32>>
        ensures outcome { result ≡ asked (is_face_in self.old.words.now self.old.shape k) k }
        ensures words { self.new.words.now ≡ wrote result (with_face self.old.words.now self.old.shape k adjacent_edge) self.old.words.now }
        ensures shape { self.new.shape ≡ self.old.shape }
    {
        let edges = 8 * self.shape.edges as usize;
        let at = 3 * self.shape.entries as usize + edges + k as usize;
        self.write(k, k < self.shape.faces, at, [adjacent_edge])
    }

    // Writes the values from `at` on, if their record is in its table and they lie in the slice.
    // A flag beside the place, and no option of it: each clause would have to be said twice, with a place and without one.
    #[tactic(auto, using(crate::proofs::Writes::part_is_with_values))]
    fn write<const N: usize>(
        &mut self,
        number: u32,
        in_table: bool,
        at: usize,
        values: [u32; N],
    ) -> Result<(), NoRecord<u32>>
        requires { at + N ≤ usize.MAX }
        ensures outcome { result ≡ asked (in_table && nat_le (at + N) (length self.old.words.now)) number }
        ensures words { self.new.words.now ≡ wrote result (with_values self.old.words.now at values.entry) self.old.words.now }
        ensures shape { self.new.shape ≡ self.old.shape }
    {
        if !in_table || at + N > self.words.len() {
            return Err(NoRecord { number });
        }
        self.words[at..at + N].copy_from_slice(&values);
        Ok(())
    }
}
