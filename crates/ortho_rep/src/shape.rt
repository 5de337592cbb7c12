//! Shapes: an angle and a string of turns for each dart. Buffers are reused by one call after another.
ghost use Rattle.std.specs.Prelude.{◌≡◌, ◌*◌, ◌<◌, ◌≤◌, ◌↔◌, IsTrue, length, All, vec_len};
ghost use Rattle.common.specs.Sums.{sum_below};
ghost use Rattle.embedding.specs.declared.graphs.TheConstants.{MAX_DARTS};
ghost use Rattle.ortho_rep.specs.declared.turn_strings.TheConstants.{MAX_TURNS, MAX_REPEATS};
ghost use Rattle.ortho_rep.specs.Storage.{lists_in};
ghost use Rattle.ortho_rep.specs.Shapes.{angle_at, turns_at};
ghost use Rattle.ortho_rep.specs.Repeats.{shape_in};
ghost use Rattle.ortho_rep.specs.Representation.{bends_of};

use crate::turn_strings::{DartShape, MAX_TURNS, Turn, repeat};
use embedding::MAX_DARTS;
use std::alloc::Global;
use std::marker::Model;

/// The buffers of `least_shape_in`, reused for the next shape. Their contents between two calls do not matter.
///
/// A shape and its prices take their lists with them. If both are returned before the next call, none allocates for a
/// plane with no more vertices, faces and darts than one before it had; if one is not, the next call allocates its
/// lists alone, and exactly what they hold. A call that returns an error may lose the buffers; the next one then
/// allocates them anew.
#[derive(Drop)]
pub struct Scratch {
    pub(crate) net: flow_network::Scratch,
    pub(crate) solver: min_cost_flow::Scratch,
    pub(crate) lists: ShapeLists,
}

impl Scratch {
    /// A scratch with empty lists. It allocates nothing.
    pub fn empty(alloc: Global) -> Scratch {
        Scratch {
            net: flow_network::Scratch::empty(alloc),
            solver: min_cost_flow::Scratch::empty(alloc),
            lists: ShapeLists::empty(alloc),
        }
    }
}

/// The lists of a shape and of its prices, to be filled anew.
#[derive(Drop)]
pub(crate) struct ShapeLists {
    pub(crate) darts: Vec<DartShape>,
    pub(crate) vertex_prices: Vec<i32>,
    pub(crate) face_prices: Vec<i32>,
}

impl ShapeLists {
    /// Three empty lists. It allocates nothing.
    pub(crate) fn empty(alloc: Global) -> ShapeLists {
        ShapeLists {
            darts: Vec::new(alloc),
            vertex_prices: Vec::new(alloc),
            face_prices: Vec::new(alloc),
        }
    }
}

/// An angle and a string of turns for each dart of a plane; it need not be an orthogonal representation.
///
/// In contracts it is the list of the angles and the list of the strings.
///
/// The angle of a dart lies at its head, between it and the next dart of its face, and is counted in right angles. Its
/// string holds its quarter turns in walking order. No accessor allocates.
#[derive(Debug, Drop)]
pub struct Shape {
    store: ShapeStore,
}

#[derive(Debug, Drop)]
enum ShapeStore {
    // no dart turns to both sides
    OneSided(Vec<DartShape>),
    Lists {
        angles: Vec<u8>,
        strings: Vec<Vec<Turn>>,
    },
}

impl Model for Shape {
    ghost use Rattle.ortho_rep.specs.Shapes.{ShapeModel};

    ghost Value = { ShapeModel };

    ghost use Rattle.ortho_rep.specs.ShapeStores.{shape_of, IsShort};

    ghost view = { λ a. shape_of a.store };

    ghost invariant = { λ a. IsShort a.store };
}

impl Shape {
    /// Whether there are at most 4,800 strings, each of at most 1,000,000 turns, as `new` requires.
    pub fn have_few_turns(strings: &[Vec<Turn>]) -> bool
        ensures { IsTrue result ↔ ((length strings.now ≤ MAX_DARTS)
            × All (λ string. vec_len string ≤ MAX_TURNS) strings.now) }
    {
        strings.len() <= MAX_DARTS && strings.iter().all(|string| string.len() <= MAX_TURNS)
    }

    /// The shape with these angles, in right angles, and these strings, each indexed by dart; it need not represent a
    /// plane. It allocates nothing.
    pub fn new(angles: Vec<u8>, strings: Vec<Vec<Turn>>) -> Shape
        requires few { vec_len strings ≤ MAX_DARTS }
        requires short { All (λ string. vec_len string ≤ MAX_TURNS) strings.items }
        ensures { result ≡ record { angles = angles.items; strings = lists_in strings.items } }
    {
        Shape {
            store: ShapeStore::Lists { angles, strings },
        }
    }

    /// The shape in which dart i has the angle and the turns of `darts[i]`, all to one side. It takes the list as it
    /// is, and allocates nothing.
    pub fn of_darts(darts: Vec<DartShape>) -> Shape
        requires few { vec_len darts ≤ MAX_DARTS }
        requires short { All (λ dart. dart.count ≤ MAX_REPEATS) darts.items }
        ensures { result ≡ shape_in darts.items }
    {
        Shape {
            store: ShapeStore::OneSided(darts),
        }
    }

    /// Moves the list of this shape to `scratch`, to be reused; the list that was there is dropped. A shape by `new`
    /// has no such list: it is dropped, and `scratch` stays as it is. It allocates nothing.
    ///
    /// A shape that [`least_shape_in`](crate::least_shape_in) made has such a list.
    pub fn give_back(self, scratch: &mut Scratch) {
        match self.store {
            ShapeStore::OneSided(darts) => scratch.lists.darts = darts,
            ShapeStore::Lists {
                angles: _,
                strings: _,
            } => {}
        }
    }

    /// The number of angles.
    pub fn angle_count(&self) -> usize
        ensures { result ≡ length self.now.angles }
    {
        match &self.store {
            ShapeStore::OneSided(darts) => darts.len(),
            ShapeStore::Lists { angles, .. } => angles.len(),
        }
    }

    /// The number of strings, at most 4,800.
    pub fn string_count(&self) -> usize
        ensures count { result ≡ length self.now.strings }
        ensures few { result ≤ MAX_DARTS }
    {
        match &self.store {
            ShapeStore::OneSided(darts) => darts.len(),
            ShapeStore::Lists { strings, .. } => strings.len(),
        }
    }

    /// The angle of a dart, in right angles.
    pub fn angle(&self, dart: u16) -> u8
        requires { dart < length self.now.angles }
        ensures { result ≡ angle_at self.now dart }
    {
        match &self.store {
            ShapeStore::OneSided(darts) => darts[usize::from(dart)].angle,
            ShapeStore::Lists { angles, .. } => angles[usize::from(dart)],
        }
    }

    /// The turns of a dart, at most 1,000,000, in walking order, borrowed; an empty list if it does not turn.
    #[inline]
    pub fn turns(&self, dart: u16) -> &[Turn]
        requires { dart < length self.now.strings }
        ensures value { result.now ≡ turns_at self.now dart }
        ensures short { length result.now ≤ MAX_TURNS }
    {
        match &self.store {
            ShapeStore::OneSided(darts) => {
                let dart = darts[usize::from(dart)];
                repeat(dart.turn, dart.count)
            }
            ShapeStore::Lists { strings, .. } => strings[usize::from(dart)].as_slice(),
        }
    }

    /// The total number of turns of all strings. Linear in the strings.
    pub fn turn_count(&self) -> u64
        ensures count { result ≡ sum_below (length self.now.strings) (λ d. length (turns_at self.now d)) }
        ensures few { result ≤ length self.now.strings * MAX_TURNS }
    {
        match &self.store {
            ShapeStore::OneSided(darts) => {
                let mut turns = 0;
                for dart in darts {
                    turns += u32::from(dart.count);
                }
                u64::from(turns)
            }
            ShapeStore::Lists { strings, .. } => {
                let mut turns = 0;
                for string in strings {
                    turns += string.len() as u64;
                }
                turns
            }
        }
    }

    /// The number of bends: half the sum of the lengths of all strings, rounded down.
    ///
    /// Linear in the strings.
    pub fn bends(&self) -> u32
        ensures { result ≡ bends_of (length self.now.strings) (turns_at self.now) }
    {
        // Only the proof needs this: `string_count` says that there are few.
        let _strings = self.string_count();
        (self.turn_count() / 2) as u32
    }
}
