//! Known graphs and refused records, answered as a whole and stage by stage.

use answers::{Answer, Cause, Entry, Framed, KeepEntries, Task, answer};
use common::{Choice, DrawingKind};
use embedding::Rule;
use lanes::{Numbered, Staged};
use planar_code::Record;
use std::alloc::Global;
use std::process::Abort;
use test_tools::records::{
    CAPPED_CUBE, LONGER_CUBE, OCTAHEDRON, STAR, TETRAHEDRON, TETRAHEDRON_ON_A_TORUS, TRIANGLE,
};
use test_tools::{record_of, same};

/// The expected answer to a record.
#[derive(Clone, Copy)]
enum Said {
    /// Its numbers of vertices, edges, faces and bends; the shape is drawn.
    Drawn(u16, u16, u16, u32),
    Refused(Rule),
}

/// Records by hand. The bends of the octahedron are those of seven faces at distances 1, 1, 1, 2, 2, 2 and 3
/// from the outer one.
const CASES: [(&[u8], Said); 15] = [
    (&[2, 2, 0, 1, 0], Said::Drawn(2, 1, 1, 0)),
    (&[1, 0], Said::Refused(Rule::Edgeless)),
    (&[2, 0, 0], Said::Refused(Rule::Edgeless)),
    (TRIANGLE, Said::Drawn(3, 3, 2, 1)),
    (TETRAHEDRON, Said::Drawn(4, 6, 4, 4)),
    (TETRAHEDRON_ON_A_TORUS, Said::Refused(Rule::Genus)),
    (OCTAHEDRON, Said::Drawn(6, 12, 8, 12)),
    (STAR, Said::Drawn(5, 4, 1, 0)),
    (
        &[6, 2, 3, 4, 5, 6, 0, 1, 0, 1, 0, 1, 0, 1, 0, 1, 0],
        Said::Refused(Rule::Degree),
    ),
    (&[2, 3, 0, 1, 0], Said::Refused(Rule::Range)),
    (&[2, 2, 0, 0], Said::Refused(Rule::Asymmetric)),
    (&[2, 1, 0, 0], Said::Refused(Rule::Loop)),
    (&[2, 2, 2, 0, 1, 1, 0], Said::Refused(Rule::Multi)),
    (
        &[4, 2, 0, 1, 0, 4, 0, 3, 0],
        Said::Refused(Rule::Disconnected),
    ),
    // A neighbour is out of range, and a vertex is its own neighbour.
    (&[2, 3, 0, 2, 0], Said::Refused(Rule::Range)),
];

/// Checks that the answer is the expected one.
fn expect(rt: &impl Abort, answer: &Answer, said: Said) {
    match (answer, said) {
        (
            Answer::Laid {
                plane,
                shape,
                drawing: Ok(drawn),
                ..
            },
            Said::Drawn(n, m, f, bends),
        ) => {
            let graph = plane.graph();
            let sizes = (graph.vertices(), graph.edges(), plane.face_count());
            same!(rt, (sizes, shape.bends()), ((n, m, f), bends));
            same!(rt, drawn.points().vertex_count(), usize::from(n));
        }
        (Answer::Refused(rule), Said::Refused(first)) => same!(rt, *rule, first),
        _ => assert!(rt; false),
    }
}

/// Checks the answer to a record under a choice: as a whole, and stage by stage with either drawing.
fn check(rt: &impl Abort, alloc: Global, bytes: &[u8], choice: Choice, said: Said) {
    let rec = record_of(alloc, bytes).expect(rt, "a record");
    expect_entry(rt, answer(alloc, 63, 999_999, rec, choice), said);
    for drawing_kind in [DrawingKind::Quick, DrawingKind::Short] {
        let rec = record_of(alloc, bytes).expect(rt, "a record");
        expect_entry(rt, staged(alloc, rec, choice, drawing_kind), said);
    }
}

/// Checks that the answer of an entry is the expected one.
fn expect_entry(rt: &impl Abort, entry: Entry, said: Said) {
    expect(rt, &entry.answer, said);
}

/// What a stage makes of a record.
fn pass<S: Staged>(alloc: Global, staged: S) -> S::Next {
    let mut scratch = S::scratch(alloc);
    staged.work(alloc, &mut scratch)
}

/// The entry of a record with this drawing, stage by stage.
pub(crate) fn staged(
    alloc: Global,
    rec: Record,
    choice: Choice,
    drawing_kind: DrawingKind,
) -> Entry {
    // Its bytes are one record.
    let _ = rec.bytes();
    let framed = Framed {
        task: Task {
            file: 7,
            ordinal: 2,
            choice,
            drawing_kind,
        },
        purpose: KeepEntries,
        rec,
        state: (),
    };
    pass(alloc, pass(alloc, pass(alloc, framed)))
}

/// Records by hand have their answers under either choice of the outer face.
#[test]
fn answers_known_records(rt: HostRuntime) {
    for (bytes, said) in CASES {
        check(&rt, rt.alloc(), bytes, Choice::First, said);
        check(&rt, rt.alloc(), bytes, Choice::Best, said);
    }
}

/// The best outer face is chosen if it needs fewer bends than the widest one.
#[test]
fn chooses_the_outer_face(rt: HostRuntime) {
    let cases: [(&[u8], Choice, Said); 4] = [
        (CAPPED_CUBE, Choice::First, Said::Drawn(9, 16, 9, 10)),
        (CAPPED_CUBE, Choice::Best, Said::Drawn(9, 16, 9, 8)),
        (LONGER_CUBE, Choice::First, Said::Drawn(10, 17, 9, 9)),
        (LONGER_CUBE, Choice::Best, Said::Drawn(10, 17, 9, 8)),
    ];
    for (bytes, choice, said) in cases {
        check(&rt, rt.alloc(), bytes, choice, said);
    }
}

/// Each cause has its word.
#[test]
fn names_all_causes(rt: HostRuntime) {
    let words = [
        (Cause::Wide, "wide"),
        (Cause::OutOfGrid, "outofgrid"),
        (Cause::NotAxis, "notaxis"),
        (Cause::WrongTurn, "wrongturn"),
        (Cause::Meet, "meet"),
    ];
    for (cause, word) in words {
        same!(&rt, cause.word(), word);
    }
}

/// Checks that the answer is that to a triangle, or that memory ran out; returns whether it is that to a triangle.
fn is_of_a_triangle(rt: &impl Abort, answer: &Answer) -> bool {
    if let Answer::NoMemory = answer {
        return false;
    }
    expect(rt, answer, Said::Drawn(3, 3, 2, 1));
    true
}

/// Whether the entry of a triangle has the answer to it; true if memory runs out for the record itself.
fn answers_a_triangle(rt: &impl Abort, alloc: Global) -> bool {
    match record_of(alloc, TRIANGLE) {
        Some(rec) => {
            let entry = answer(alloc, 1, 2, rec, Choice::Best);
            same!(rt, (entry.file(), entry.ordinal()), (1, 2));
            is_of_a_triangle(rt, &entry.answer)
        }
        None => true,
    }
}

/// If memory runs out, the answer says so, and a second call answers as without the refusal.
/// `checks/refuse-allocations` refuses each allocation of this test in turn.
#[test]
fn refused_allocations(rt: HostRuntime) {
    if !answers_a_triangle(&rt, rt.alloc()) {
        same!(&rt, answers_a_triangle(&rt, rt.alloc()), true);
    }
}

/// A record that breaks only the last rule is refused with it, even if an allocation is refused.
/// `checks/refuse-allocations` refuses each allocation of this test in turn.
#[test]
fn genus_is_named_in_no_memory(rt: HostRuntime) {
    let rec = record_of(rt.alloc(), TETRAHEDRON_ON_A_TORUS).expect(&rt, "a record");
    let entry = answer(rt.alloc(), 1, 2, rec, Choice::First);
    expect_entry(&rt, entry, Said::Refused(Rule::Genus));
}
