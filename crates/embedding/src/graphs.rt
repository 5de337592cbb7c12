//! A graph that keeps rules 1 to 7, as a combinatorial map (Edmonds 1960): darts, and their order round each vertex.
//! Its buffers are reused by one call after another.
ghost use Rattle.std.specs.Prelude.{◌≡◌, ℕ, ◌+◌, ◌*◌, ◌<◌, ◌≤◌, List, length, IfOk, IfErr, OnOk};
ghost use Rattle.common.specs.declared.parameters.TheConstants.{MAX_VERTICES};
ghost use Rattle.embedding.specs.declared.graphs.TheConstants.{MAX_DARTS, MAX_EDGES};
ghost use Rattle.embedding.specs.Lists.{list_of};
ghost use Rattle.embedding.specs.Darts.{dart_count, head_of, tail_of, reverse_of, after_of, next_of, IsInvolution, IsOneToOne};
ghost use Rattle.embedding.specs.Faces.{HasFaces, degree_in};
ghost use Rattle.embedding.specs.Walk.{at};
ghost use Rattle.embedding.specs.Rules.{KeepsBefore};
ghost use Rattle.embedding.specs.Faults.{IsReadFault};
ghost use Rattle.embedding.specs.declared.wide_record.TheConstants.{MAX_ENTRIES};
ghost use Rattle.planar_code.specs.Stream.{lists_of};

use crate::breaks::{ReadFault, first_broken};
use crate::combinatorial_map::{add_heads, add_starts, make_rotation};
use crate::genus::add_faces;
use crate::neighbour_lists::{
    FEW_ENTRIES, FEW_STARTS, Lists, RECORD_ENTRIES, RECORD_STARTS, SHORT_ENTRIES, SHORT_STARTS,
    SOME_ENTRIES, WIDE_STARTS, entry_count, find_starts, write_lists,
};
use crate::wide_record::WideRecord;
use common::{MAX_VERTICES, emptied};
use planar_code::Record;
use std::alloc::Global;
use std::marker::Model;
use std::mem;

/// The buffers of a graph, to be reused for the next one. Their contents between two graphs do not matter.
///
/// A graph takes its two lists with it. If each graph is returned before the next one is read, none allocates for a
/// record with no more vertices and no more darts than one before it had; if one is not, the next graph allocates both.
#[derive(Drop)]
pub struct Scratch {
    pub(crate) heads: Vec<u16>,
    pub(crate) table: Vec<u16>,
}

impl Scratch {
    /// An empty scratch. It allocates nothing.
    pub fn empty(alloc: Global) -> Scratch {
        Scratch {
            heads: Vec::new(alloc),
            table: Vec::new(alloc),
        }
    }
}

/// The maximum number of darts of a graph: four for each of 1,200 vertices.
pub const MAX_DARTS: usize = 4 * MAX_VERTICES;

/// The maximum number of edges of a graph: half the number of darts.
pub const MAX_EDGES: usize = 2 * MAX_VERTICES;

/// A connected simple graph of maximum degree at most 4, given by its clockwise neighbour lists.
///
/// It has no loops or double edges. In contracts it is these lists, one for each vertex.
///
/// Each entry v in the list of u is the dart from u, its tail, to v, its head. Vertices are numbered from 1, and darts
/// from 0 in the order of their entries. No accessor allocates, and each takes constant time.
#[derive(Debug, Drop)]
pub struct Graph {
    heads: Vec<u16>,
    /// Of each dart its reverse and the dart after it; then the face of each dart, the degree of each face, and where
    /// the list of each vertex begins in `heads`, at the end the number of darts.
    table: Vec<u16>,
    faces: u16,
}

impl Model for Graph {
    ghost use Rattle.std.specs.Prelude.{ℕ, List, ◌+◌, ◌*◌, length, drop};
    ghost use Rattle.embedding.specs.Tables.{slices_at, AreTables};

    ghost Value = { List (List ℕ) };

    ghost view = { λ g. slices_at (drop (3 * length g.heads.items + g.faces) g.table.items) g.heads.items };

    ghost invariant = { λ g.
        AreTables (slices_at (drop (3 * length g.heads.items + g.faces) g.table.items) g.heads.items) g.heads.items g.faces
        g.table.items };
}

impl Graph {
    /// The graph of `rec`, if it breaks none of rules 1 to 7. `Rule` with the first of these rules that it breaks;
    /// `Memory` if it breaks none, but there is no memory for the graph. The time is linear in the record's bytes.
    ///
    /// # Errors
    ///
    /// `Rule` with the first of rules 1 to 7 that the record's lists break, exactly if they break one; `Memory` if they
    /// break none, but there was no memory for the graph.
    pub fn read(alloc: Global, rec: &Record) -> Result<Graph, ReadFault>
        ensures lists { IfOk result (λ graph. graph ≡ lists_of rec.now) }
        ensures rules { OnOk result (KeepsBefore (lists_of rec.now) 8) }
        ensures fault { IfErr result (IsReadFault (lists_of rec.now)) }
    {
        let mut scratch = Scratch::empty(alloc);
        Graph::read_in(alloc, &mut scratch, rec)
    }

    /// The graph of `rec`, which takes both buffers out of `scratch` and enlarges any that is too small. `Rule` with
    /// the first of rules 1 to 7 that it breaks: `scratch` stays as it is. `Memory` if it breaks none, but there is no
    /// memory to enlarge a buffer: `scratch` may have lost its buffers, and can be used again.
    ///
    /// The graph takes its lists with it; [`Graph::give_back`] returns them.
    ///
    /// # Errors
    ///
    /// As [`Graph::read`]. If a rule is broken, all lists stay in the scratch; if memory runs out, lists of the scratch
    /// may be gone, and it can be used again.
    pub fn read_in(alloc: Global, scratch: &mut Scratch, rec: &Record) -> Result<Graph, ReadFault>
        ensures lists { IfOk result (λ graph. graph ≡ lists_of rec.now) }
        ensures rules { OnOk result (KeepsBefore (lists_of rec.now) 8) }
        ensures fault { IfErr result (IsReadFault (lists_of rec.now)) }
    {
        let size = entry_count(rec);
        let order = usize::from(rec.order());
        if size <= SHORT_ENTRIES && order < SHORT_STARTS {
            Graph::read_within::<SHORT_ENTRIES, SHORT_STARTS>(alloc, scratch, rec)
        } else if size <= FEW_ENTRIES && order < FEW_STARTS {
            Graph::read_within::<FEW_ENTRIES, FEW_STARTS>(alloc, scratch, rec)
        } else if size <= SOME_ENTRIES {
            Graph::read_within::<SOME_ENTRIES, RECORD_STARTS>(alloc, scratch, rec)
        } else {
            Graph::read_within::<RECORD_ENTRIES, RECORD_STARTS>(alloc, scratch, rec)
        }
    }

    /// The graph of `rec`, which takes both buffers out of `scratch`. `Rule` with the first of rules 1 to 7 that it
    /// breaks: `scratch` stays as it is. Else `Memory` if a buffer is too small and there is no memory: `scratch` has
    /// lost both. `rec` must have at most `ENTRIES` entries, with the 0 of each list, and fewer than `STARTS` lists.
    #[inline(never)]
    fn read_within<const ENTRIES: usize, const STARTS: usize>(
        alloc: Global,
        scratch: &mut Scratch,
        rec: &Record,
    ) -> Result<Graph, ReadFault>
        requires fits_entries { ENTRIES < MAX_ENTRIES }
        requires fits_starts { STARTS < MAX_ENTRIES }
        requires entries { length rec.now ≤ ENTRIES + 1 }
        requires starts { length (lists_of rec.now) < STARTS }
        ensures lists { IfOk result (λ graph. graph ≡ lists_of rec.now) }
        ensures rules { OnOk result (KeepsBefore (lists_of rec.now) 8) }
        ensures fault { IfErr result (IsReadFault (lists_of rec.now)) }
    {
        let mut room = [0u16; ENTRIES];
        let mut starts = [0u16; STARTS];
        let entries = &mut room[..entry_count(rec)];
        let count = write_lists(rec, entries, &mut starts);
        let lists = Lists::new(entries, &starts, count);
        Graph::of(alloc, scratch, &lists)
    }

    /// The graph of the wide record `rec`, if it breaks none of rules 1 to 7. `Rule` with the first of these rules that
    /// it breaks; `Memory` if it breaks none, but there is no memory for the graph.
    ///
    /// The time is linear in the record's entries if no list has more than four or there are at most 255 lists, and
    /// otherwise at most in proportion to the entries times the length of the longest list.
    ///
    /// # Errors
    ///
    /// As [`Graph::read`].
    pub fn read_wide(alloc: Global, rec: &WideRecord) -> Result<Graph, ReadFault>
        ensures lists { IfOk result (λ graph. graph ≡ lists_of rec.now) }
        ensures rules { OnOk result (KeepsBefore (lists_of rec.now) 8) }
        ensures fault { IfErr result (IsReadFault (lists_of rec.now)) }
    {
        let mut scratch = Scratch::empty(alloc);
        Graph::read_wide_in(alloc, &mut scratch, rec)
    }

    /// The graph of the wide record `rec`, which takes both buffers out of `scratch` and enlarges any that is too
    /// small. `Rule` with the first of rules 1 to 7 that it breaks: `scratch` stays as it is. `Memory` if it breaks
    /// none, but there is no memory to enlarge a buffer: `scratch` may have lost its buffers, and can be used again.
    ///
    /// The graph takes its lists with it; [`Graph::give_back`] returns them.
    ///
    /// # Errors
    ///
    /// As [`Graph::read_in`].
    pub fn read_wide_in(
        alloc: Global,
        scratch: &mut Scratch,
        rec: &WideRecord,
    ) -> Result<Graph, ReadFault>
        ensures lists { IfOk result (λ graph. graph ≡ lists_of rec.now) }
        ensures rules { OnOk result (KeepsBefore (lists_of rec.now) 8) }
        ensures fault { IfErr result (IsReadFault (lists_of rec.now)) }
    {
        if usize::from(rec.order()) < FEW_STARTS {
            Graph::read_wide_within::<FEW_STARTS>(alloc, scratch, rec)
        } else {
            Graph::read_wide_within::<WIDE_STARTS>(alloc, scratch, rec)
        }
    }

    /// The graph of the wide record `rec`, which takes both buffers out of `scratch`. `Rule` with the first of rules 1
    /// to 7 that it breaks: `scratch` stays as it is. Else `Memory` if a buffer is too small and there is no memory:
    /// `scratch` has lost both. `rec` must have fewer than `STARTS` lists.
    #[inline(never)]
    fn read_wide_within<const STARTS: usize>(
        alloc: Global,
        scratch: &mut Scratch,
        rec: &WideRecord,
    ) -> Result<Graph, ReadFault>
        requires fits { STARTS < MAX_ENTRIES }
        requires starts { length (lists_of rec.now) < STARTS }
        ensures lists { IfOk result (λ graph. graph ≡ lists_of rec.now) }
        ensures rules { OnOk result (KeepsBefore (lists_of rec.now) 8) }
        ensures fault { IfErr result (IsReadFault (lists_of rec.now)) }
    {
        let mut starts = [0u16; STARTS];
        let entries = &rec.entries()[1..];
        find_starts(entries, &mut starts);
        let lists = Lists::new(entries, &starts, rec.order());
        Graph::of(alloc, scratch, &lists)
    }

    /// The graph of `lists`, which takes both buffers out of `scratch` and enlarges any that is too small. `Rule` with
    /// the first of rules 1 to 7 that they break: `scratch` stays as it is. `Memory` if they break none, but there is
    /// no memory to enlarge a buffer: `scratch` has then lost its buffers, and can be used again.
    ///
    /// A buffer that is enlarged gets just the size that a plane needs.
    fn of(alloc: Global, scratch: &mut Scratch, lists: &Lists<'_>) -> Result<Graph, ReadFault>
        requires { length lists.now ≤ MAX_VERTICES }
        ensures lists { IfOk result (λ graph. graph ≡ lists.now) }
        ensures rules { OnOk result (KeepsBefore lists.now 8) }
        ensures fault { IfErr result (IsReadFault lists.now) }
    {
        if let Some(rule) = first_broken(lists) {
            return Err(ReadFault::Rule(rule));
        }
        let darts = lists.darts();
        let old_heads = mem::replace(&mut scratch.heads, Vec::new(alloc));
        let old_table = mem::replace(&mut scratch.table, Vec::new(alloc));
        let mut heads = emptied(old_heads, darts)?;
        for place in 0..lists.count() {
            add_heads(&mut heads, lists, place);
        }
        let mut table = emptied(old_table, 3 * darts + darts / 2 + 3)?;
        make_rotation(&mut table, lists)?;
        let faces = add_faces(&mut table, darts)?;
        add_starts(&mut table, lists)?;
        Ok(Graph {
            heads,
            table,
            faces,
        })
    }

    /// Drops this graph, and puts its two buffers into `scratch`, for the next graph, in place of those that it has.
    pub fn give_back(self, scratch: &mut Scratch) {
        scratch.heads = self.heads;
        scratch.table = self.table;
    }

    /// The number of vertices, 1 to 1,200.
    pub fn vertices(&self) -> u16
        ensures count { result ≡ length self.now }
        ensures some { 0 < result }
        ensures few { result ≤ MAX_VERTICES }
        ensures rules { KeepsBefore self.now 8 }
    {
        (self.table.len() - 3 * self.heads.len() - usize::from(self.faces) - 1) as u16
    }

    /// The number of edges, 1 to 2,400: half the number of darts.
    pub fn edges(&self) -> u16
        ensures count { 2 * result ≡ dart_count self.now }
        ensures some { 0 < result }
        ensures few { result ≤ MAX_EDGES }
    {
        (self.heads.len() / 2) as u16
    }

    /// The number of darts, 2 to 4,800.
    pub fn darts(&self) -> u16
        ensures count { result ≡ dart_count self.now }
        ensures some { 0 < result }
        ensures few { result ≤ MAX_DARTS }
        ensures rules { KeepsBefore self.now 8 }

        // What holds of all darts at once; for one dart the accessors below say it.
        ensures paired { IsInvolution (dart_count self.now) (reverse_of self.now) }
        ensures rotated { IsOneToOne (dart_count self.now) (after_of self.now) }
        ensures walked { IsOneToOne (dart_count self.now) (next_of self.now) }
    {
        self.heads.len() as u16
    }

    /// The neighbours of `vertex`, counted from 1, in clockwise order: at most four.
    pub fn neighbours(&self, vertex: u16) -> &[u16]
        requires some { 0 < vertex }
        requires within { vertex ≤ length self.now }
        ensures value { result.now ≡ list_of self.now vertex }
        ensures few { length result.now ≤ 4 }
    {
        let place = usize::from(vertex) - 1;
        let start = 3 * self.heads.len() + usize::from(self.faces) + place;
        let from = usize::from(self.table[start]);
        let to = usize::from(self.table[start + 1]);
        &self.heads[from..to]
    }

    /// The vertex that a dart comes from, 1 to n.
    pub fn tail(&self, dart: u16) -> u16
        requires { dart < dart_count self.now }
        ensures value { result ≡ tail_of self.now dart }
        ensures some { 0 < result }
        ensures within { result ≤ length self.now }
    {
        self.head(self.reverse(dart))
    }

    /// The vertex that a dart goes to, 1 to n.
    pub fn head(&self, dart: u16) -> u16
        requires { dart < dart_count self.now }
        ensures value { result ≡ head_of self.now dart }
        ensures some { 0 < result }
        ensures within { result ≤ length self.now }
    {
        self.heads[usize::from(dart)]
    }

    /// The dart along the same edge as `dart` in the other direction.
    pub fn reverse(&self, dart: u16) -> u16
        requires { dart < dart_count self.now }
        ensures value { result ≡ reverse_of self.now dart }
        ensures inside { result < dart_count self.now }
        ensures back { reverse_of self.now result ≡ dart }
        ensures tail { tail_of self.now result ≡ head_of self.now dart }
        ensures head { head_of self.now result ≡ tail_of self.now dart }
    {
        self.table[2 * usize::from(dart)]
    }

    /// The next dart clockwise around the tail of `dart`: `dart` itself if its tail has no other.
    pub fn after(&self, dart: u16) -> u16
        requires { dart < dart_count self.now }
        ensures value { result ≡ after_of self.now dart }
        ensures inside { result < dart_count self.now }
        ensures tail { tail_of self.now result ≡ tail_of self.now dart }
    {
        self.table[2 * usize::from(dart) + 1]
    }

    /// The number of the face on the left of `dart`.
    ///
    /// Faces are walked by the darts' next ones, and are numbered from 0 in the order of their least darts.
    pub fn face_of(&self, dart: u16) -> u16
        requires { dart < dart_count self.now }
        ensures { (face : ℕ → ℕ) (f : ℕ) → HasFaces (dart_count self.now) (next_of self.now) face f
            → result ≡ face dart }
    {
        self.table[2 * self.heads.len() + usize::from(dart)]
    }

    /// The number of faces. The graph need not be a plane.
    pub fn face_count(&self) -> u16
        ensures value { (face : ℕ → ℕ) (f : ℕ) → HasFaces (dart_count self.now) (next_of self.now) face f
            → result ≡ f }
        ensures numbered { (faces : List ℕ) × (length faces ≡ dart_count self.now)
            × HasFaces (dart_count self.now) (next_of self.now) (at faces) result }
    {
        self.faces
    }

    /// The number of darts of `face`, which must be below the number of faces.
    pub fn face_degree(&self, face: u16) -> u16
        requires { (other : ℕ → ℕ) (f : ℕ) → HasFaces (dart_count self.now) (next_of self.now) other f → face < f }
        ensures { (other : ℕ → ℕ) (f : ℕ) → HasFaces (dart_count self.now) (next_of self.now) other f
            → result ≡ degree_in (dart_count self.now) other face }
    {
        self.table[3 * self.heads.len() + usize::from(face)]
    }
}
