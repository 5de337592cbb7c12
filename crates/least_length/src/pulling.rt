//! The primal-dual method (Ahuja, Magnanti and Orlin, Network Flows, 1993, section 9.8): wires pull segments until all
//! are in balance.

ghost use Rattle.std.specs.Prelude.{◌≡◌, ◌<◌, ◌≤◌, ◌+◌, ℕ, [], length, true, false, vec_len, slice_index, IfOk, IfSome, OnOk};
ghost use Rattle.least_length.specs.declared.segments.TheConstants.{MAX_SEGMENTS, MAX_SIGHTS, MAX_WIRES};
ghost use Rattle.least_length.specs.Lengths.{segment_at, wire_at};
ghost use Rattle.least_length.specs.Weights.{HasEnds};
ghost use Rattle.least_length.specs.Searching.{AreMarks, ArePairs, AreSegments, IsPair, IsReady};

use crate::segments::{MAX_SIGHTS, Segment, Sight, Wire, add_sights, add_wires, are_same};
use crate::sight_lists::SightLists;
use std::alloc::{AllocError, Global};

/// The maximum number of pulls on one segment.
const MAX_PULLS: usize = 65_536;

/// Marks a segment that the search has not reached.
const UNREACHED: u16 = 0;

/// Marks the segment where the search began.
const ROOT: u16 = 1;

/// The first of the marks that give the pair by which a segment was reached.
const PAIRS: u16 = 2;

/// The state and buffers of the search for least coordinates.
#[derive(Drop)]
pub(crate) struct Pulling {
    pub(crate) sight_lists: SightLists,
    /// For each segment, the number of units that pull it up.
    up: Vec<u64>,
    /// For each segment, the number of units that pull it down.
    down: Vec<u64>,
    /// The current coordinates of the segments.
    coordinates: Vec<u32>,
    /// For each segment, how the search reached it: `UNREACHED`, `ROOT`, or by a pair.
    marks: Vec<u16>,
    /// The segments that the search has reached.
    reached: Vec<u16>,
    /// The segments reached that the search has still to look at, since pairs may lead on from them.
    unlooked: Vec<u16>,
    /// Whether some segments have moved and others have not.
    pub(crate) moved: bool,
}

impl Pulling {
    /// A search with empty buffers, in which nothing has moved; it allocates nothing.
    pub(crate) fn empty(alloc: Global) -> Pulling
        ensures { result.coordinates.items ≡ [] }
    {
        Pulling {
            sight_lists: SightLists::empty(alloc),
            up: Vec::new(alloc),
            down: Vec::new(alloc),
            coordinates: Vec::new(alloc),
            marks: Vec::new(alloc),
            reached: Vec::new(alloc),
            unlooked: Vec::new(alloc),
            moved: false,
        }
    }

    /// Searches for weights in balance at each segment, and for coordinates with which weighted pairs are adjacent;
    /// stores both here. False if there are more than `MAX_SIGHTS` pairs, units cannot be sent, or too few of `looks`
    /// are left; it takes one for each segment gone over. `AllocError` if there is no memory for the buffers.
    ///
    /// True does not prove balance, which is missed if a segment needs more than `MAX_PULLS` sends. After false, the
    /// coordinates and weights are as far as the search came; with too many pairs, the coordinates are those of an
    /// earlier search.
    ///
    /// The segments are in the order of their coordinates, and no level is above `top`. Each segment that the search
    /// goes over takes one of the looks, each time.
    pub(crate) fn search_weights(
        &mut self,
        segments: &[Segment],
        wires: &[Wire],
        top: u16,
        looks: &mut u64,
    ) -> Result<bool, AllocError>
        requires few { length segments.now ≤ MAX_SEGMENTS }
        requires wires { length wires.now ≤ MAX_WIRES }
        requires ends { (i : ℕ) → i < length wires.now → HasEnds segments.now (wire_at wires.now i) }
        requires levels { (i : ℕ) → i < length wires.now → (wire_at wires.now i).level ≤ top }
        requires crossed { (r : ℕ) → (segment_at segments.now r).high ≤ top }
        ensures looks { looks.new ≤ looks.old }
    {
        self.sight_lists.list(segments, wires, top)?;
        if self.sight_lists.sights.len() > MAX_SIGHTS {
            return Ok(false);
        }
        self.begin(segments, wires)?;
        if are_same(self.up.as_slice(), self.down.as_slice()) {
            return Ok(true);
        }
        self.sight_lists.list_ends(segments.len())?;
        self.marks.clear();
        self.marks.resize(segments.len(), UNREACHED)?;
        self.reached.clear();
        for root in 0..segments.len() as u16 {
            if !self.relieve(root, looks)? {
                return Ok(false);
            }
        }
        Ok(true)
    }

    /// Starts a search: sets `moved` to false, copies the segments' own coordinates, sets the weights of pairs that are
    /// not adjacent to 0, and sums in `up` and `down` the pulls of the wires and of the other weights. `AllocError` if
    /// there is no memory for these three lists: they are then incomplete, and no weight changes.
    fn begin(&mut self, segments: &[Segment], wires: &[Wire]) -> Result<(), AllocError>
        requires few { vec_len self.old.sight_lists.sights ≤ MAX_SIGHTS }
        requires pairs { ArePairs (length segments.now) self.old.sight_lists.sights.items }
        requires wires { length wires.now ≤ MAX_WIRES }
        requires ends { (i : ℕ) → i < length wires.now → HasEnds segments.now (wire_at wires.now i) }
        ensures same { OnOk result (vec_len self.new.sight_lists.sights ≡ vec_len self.old.sight_lists.sights) }
        ensures pairs { OnOk result (ArePairs (length segments.now) self.new.sight_lists.sights.items) }
        ensures coordinates { OnOk result (vec_len self.new.coordinates ≡ length segments.now) }
        ensures up { OnOk result (vec_len self.new.up ≡ length segments.now) }
        ensures down { OnOk result (vec_len self.new.down ≡ length segments.now) }
    {
        self.moved = false;
        self.coordinates.clear();
        for segment in segments {
            self.coordinates.push(u32::from(segment.coordinate))?;
        }
        self.up.clear();
        self.up.resize(segments.len(), 0)?;
        self.down.clear();
        self.down.resize(segments.len(), 0)?;
        let up = self.up.as_mut_slice();
        let down = self.down.as_mut_slice();
        add_wires(wires, up, down);
        let sights = self.sight_lists.sights.as_mut_slice();
        drop_distant(sights, self.coordinates.as_slice());
        add_sights(sights, up, down);
        Ok(())
    }

    /// Sends units that pull the segment `root` up to others, until no more pull it up than down, or `MAX_PULLS` times;
    /// returns true in both cases. False if a send fails or too few of `looks` are left; each send takes some of them.
    /// `AllocError` if there is no memory for the segments reached. Earlier sends stay in all cases.
    fn relieve(&mut self, root: u16, looks: &mut u64) -> Result<bool, AllocError>
        requires ready { IsReady self.old }
        requires root { root < vec_len self.old.coordinates }
        ensures ready { OnOk result (IsReady self.new) }
        ensures count { vec_len self.new.coordinates ≡ vec_len self.old.coordinates }
        ensures looks { looks.new ≤ looks.old }
    {
        for _ in 0..MAX_PULLS {
            if self.up[usize::from(root)] <= self.down[usize::from(root)] {
                return Ok(true);
            }
            if !self.send(root, looks)? || !spend(looks, self.reached.len()) {
                return Ok(false);
            }
        }
        Ok(true)
    }

    /// Sends units that pull `root` up along pairs to a segment that is pulled down. If no pair leads on, it takes one
    /// of `looks` for each segment reached, and moves these up until one does. False if none is found, a coordinate or
    /// weight leaves its range, or too few `looks` are left; `AllocError` if there is no memory.
    ///
    /// Segments that moved before that stay where they are then.
    fn send(&mut self, root: u16, looks: &mut u64) -> Result<bool, AllocError>
        requires ready { IsReady self.old }
        requires root { root < vec_len self.old.coordinates }
        requires pulled { slice_index self.old.down.items root < slice_index self.old.up.items root }
        ensures ready { OnOk result (IsReady self.new) }
        ensures count { vec_len self.new.coordinates ≡ vec_len self.old.coordinates }
        ensures looks { looks.new ≤ looks.old }
    {
        clear_marks(self.marks.as_mut_slice(), self.reached.as_slice());
        self.marks[usize::from(root)] = ROOT;
        self.reached.clear();
        self.reached.push(root)?;
        self.unlooked.clear();
        self.unlooked.push(root)?;
        for _ in 0..self.marks.len() {
            if let Some(target) = self.search_pairs()? {
                return Ok(self.augment(root, target));
            }
            if !spend(looks, self.reached.len()) {
                return Ok(false);
            }
            if !self.move_up()? {
                return Ok(false);
            }
        }
        Ok(false)
    }

    /// Goes from the segments in `unlooked` along pairs up to the first segment that is pulled down more than up, and
    /// returns it; `None` if there is none. Marks the segments reached, appends them to `reached`, and removes those
    /// looked at from `unlooked`. `AllocError` if there is no memory for these lists.
    ///
    /// It searches depth first, which finds one after fewer segments than their order does.
    fn search_pairs(&mut self) -> Result<Option<u16>, AllocError>
        requires ready { IsReady self.old }
        requires unlooked { AreSegments (vec_len self.old.coordinates) self.old.unlooked.items }
        ensures ready { OnOk result (IsReady self.new) }
        ensures count { vec_len self.new.coordinates ≡ vec_len self.old.coordinates }
        ensures up { self.new.up ≡ self.old.up }
        ensures down { self.new.down ≡ self.old.down }
        ensures target { IfOk result (λ found. IfSome found (λ target. target < vec_len self.new.coordinates)) }
        ensures pulled { IfOk result (λ found. IfSome found (λ target. slice_index self.new.up.items target < slice_index self.new.down.items target)) }
    {
        for _ in 0..self.marks.len() {
            let Some(segment) = self.unlooked.pop() else {
                break;
            };
            if let Some(target) = self.visit(segment)? {
                return Ok(Some(target));
            }
        }
        Ok(None)
    }

    /// Reaches the segments to which the pairs of `segment` lead, up to the first one that is pulled down more than up,
    /// and returns it; `None` if there is none. Marks each with its pair and appends it to `reached` and `unlooked`.
    /// `AllocError` if there is no memory for these lists.
    fn visit(&mut self, segment: u16) -> Result<Option<u16>, AllocError>
        requires ready { IsReady self.old }
        requires unlooked { AreSegments (vec_len self.old.coordinates) self.old.unlooked.items }
        requires segment { segment < vec_len self.old.coordinates }
        ensures ready { OnOk result (IsReady self.new) }
        ensures unlooked { OnOk result (AreSegments (vec_len self.new.coordinates) self.new.unlooked.items) }
        ensures count { vec_len self.new.coordinates ≡ vec_len self.old.coordinates }
        ensures up { self.new.up ≡ self.old.up }
        ensures down { self.new.down ≡ self.old.down }
        ensures target { IfOk result (λ found. IfSome found (λ target. target < vec_len self.new.coordinates)) }
        ensures pulled { IfOk result (λ found. IfSome found (λ target. slice_index self.new.up.items target < slice_index self.new.down.items target)) }
    {
        let mut end = self.sight_lists.ends.first(segment);
        while end != 0 {
            let pair = self.sight_lists.pair_of(end);
            if let Some(next) = self.next(pair, segment) {
                self.marks[usize::from(next)] = pair as u16 + PAIRS;
                self.reached.push(next)?;
                self.unlooked.push(next)?;
                if self.up[usize::from(next)] < self.down[usize::from(next)] {
                    return Ok(Some(next));
                }
            }
            end = self.sight_lists.ends.next(end);
        }
        Ok(None)
    }

    /// The segment to which the pair with the index `pair` leads from `segment`, one of its members: the second, if
    /// both are adjacent, or the first, if the pair has a weight to take back. `None` if it leads to none, or to one
    /// reached already.
    fn next(&self, pair: usize, segment: u16) -> Option<u16>
        requires ready { IsReady self.now }
        requires pair { pair < vec_len self.now.sight_lists.sights }
        ensures { IfSome result (λ next. next < vec_len self.now.coordinates) }
    {
        let sight = self.sight_lists.sights[pair];
        let (leads, next) = if sight.before == segment {
            (self.slack(sight) == 0, sight.behind)
        } else {
            (sight.weight != 0, sight.before)
        };
        (leads && self.marks[usize::from(next)] == UNREACHED).then_some(next)
    }

    /// Moves all segments reached up until one is adjacent to one not reached, replaces `unlooked` by those that then
    /// are, and sets `moved`. False if no segment is in their way, and none moves, or if a coordinate would be above
    /// 4,294,967,295, and some may have moved. `AllocError` if there is no memory for `unlooked`, and none moves.
    fn move_up(&mut self) -> Result<bool, AllocError>
        requires ready { IsReady self.old }
        ensures ready { OnOk result (IsReady self.new) }
        ensures unlooked { OnOk result (AreSegments (vec_len self.new.coordinates) self.new.unlooked.items) }
        ensures count { vec_len self.new.coordinates ≡ vec_len self.old.coordinates }
        ensures up { self.new.up ≡ self.old.up }
        ensures down { self.new.down ≡ self.old.down }
    {
        let slack = self.least_slack()?;
        if slack == u32::MAX {
            return Ok(false);
        }
        self.moved = true;
        let coordinates = self.coordinates.as_mut_slice();
        Ok(raise(coordinates, self.reached.as_slice(), slack))
    }

    /// How far all segments reached can move up together; `u32::MAX` if no other segment is in their way. Replaces
    /// `unlooked` by those of them that can move no further than that; `AllocError` if there is no memory for it.
    fn least_slack(&mut self) -> Result<u32, AllocError>
        requires { IsReady self.old }
        ensures ready { OnOk result (IsReady self.new) }
        ensures unlooked { OnOk result (AreSegments (vec_len self.new.coordinates) self.new.unlooked.items) }
        ensures count { vec_len self.new.coordinates ≡ vec_len self.old.coordinates }
        ensures up { self.new.up ≡ self.old.up }
        ensures down { self.new.down ≡ self.old.down }
    {
        let mut least = u32::MAX;
        self.unlooked.clear();
        for place in 0..self.reached.len() {
            let segment = self.reached[place];
            let slack = self.slack_of(segment);
            least = note_least(&mut self.unlooked, segment, slack, least)?;
        }
        Ok(least)
    }

    /// How far `segment` can move up before it is adjacent to one that is not reached; 0 if it is so now, and
    /// `u32::MAX` if none is in its way.
    fn slack_of(&self, segment: u16) -> u32
        requires ready { IsReady self.now }
        requires segment { segment < vec_len self.now.coordinates }
    {
        let mut least = u32::MAX;
        let mut end = self.sight_lists.ends.first(segment);
        while end != 0 {
            let sight = self.sight_lists.sights[self.sight_lists.pair_of(end)];
            if sight.before == segment && self.marks[usize::from(sight.behind)] == UNREACHED {
                least = least.min(self.slack(sight));
            }
            end = self.sight_lists.ends.next(end);
        }
        least
    }

    /// Sends as many units as possible along the path by which the search reached `target` from `root`: changes the
    /// weights on it, the pull down on `root` and the pull up on `target`, and returns true. False if a weight would
    /// leave its range: other weights on the path may then have changed, but no pull.
    fn augment(&mut self, root: u16, target: u16) -> bool
        requires ready { IsReady self.old }
        requires root { root < vec_len self.old.coordinates }
        requires target { target < vec_len self.old.coordinates }
        requires pulled_up { slice_index self.old.down.items root < slice_index self.old.up.items root }
        requires pulled_down { slice_index self.old.up.items target < slice_index self.old.down.items target }
        ensures ready { IsReady self.new }
        ensures count { vec_len self.new.coordinates ≡ vec_len self.old.coordinates }
    {
        let spare = self.up[usize::from(root)] - self.down[usize::from(root)];
        let wanted = self.down[usize::from(target)] - self.up[usize::from(target)];
        let most = spare.min(wanted).min(u64::from(u32::MAX)) as u32;
        let units = self.path_capacity(target, most);
        let sights = self.sight_lists.sights.as_mut_slice();
        if !shift(sights, self.marks.as_slice(), target, units) {
            return false;
        }
        self.down[usize::from(root)] += u64::from(units);
        self.up[usize::from(target)] += u64::from(units);
        true
    }

    /// The number of units that the path by which the search reached `target` can carry: `most`, or the least weight of
    /// the pairs from which the path takes units back, if that is less.
    fn path_capacity(&self, target: u16, most: u32) -> u32
        requires ready { IsReady self.now }
        requires target { target < vec_len self.now.coordinates }
        ensures { result ≤ most }
    {
        let mut units = most;
        let mut segment = target;
        for _ in 0..self.marks.len() {
            let mark = self.marks[usize::from(segment)];
            if mark < PAIRS {
                break;
            }
            let sight = self.sight_lists.sights[usize::from(mark - PAIRS)];
            if sight.behind == segment {
                segment = sight.before;
            } else {
                units = units.min(sight.weight);
                segment = sight.behind;
            }
        }
        units
    }

    /// How far the segments of the pair `sight` can come nearer to each other with the current coordinates: their
    /// difference minus 1, or 0 if the first does not have the lesser one.
    fn slack(&self, sight: Sight) -> u32
        requires { IsPair (vec_len self.now.coordinates) sight }
    {
        slack_between(self.coordinates.as_slice(), sight)
    }

    /// Replaces `coordinates` by those of the search, in the order of segments, shifted so that the least is 0, and
    /// returns true. False if one is then above 65,535, `AllocError` if there is no memory for `coordinates`: it then
    /// has only those before that one.
    pub(crate) fn write(&self, coordinates: &mut Vec<u16>) -> Result<bool, AllocError> {
        let least = least_of(self.coordinates.as_slice());
        coordinates.clear();
        for coordinate in self.coordinates.as_slice() {
            let Ok(above) = u16::try_from(*coordinate - least) else {
                return Ok(false);
            };
            coordinates.push(above)?;
        }
        Ok(true)
    }
}

/// Returns the lesser of `slack`, how far `segment` can move, and `least`, how far those in `listed` can. If `slack` is
/// less, it empties `listed`; if it is less or equal, it then appends `segment`. `AllocError` if there is no memory to
/// append, which leaves `listed` without `segment`.
fn note_least(
    listed: &mut Vec<u16>,
    segment: u16,
    slack: u32,
    least: u32,
) -> Result<u32, AllocError>
    ensures { OnOk result ((count : ℕ) → segment < count → AreSegments count listed.old.items → AreSegments count listed.new.items) }
{
    if slack < least {
        listed.clear();
    }
    if slack <= least {
        listed.push(segment)?;
    }
    Ok(slack.min(least))
}

/// Takes `count` from `looks` and returns true; if `looks` is less than `count`, sets it to 0 and returns false.
fn spend(looks: &mut u64, count: usize) -> bool
    ensures left { result ≡ true → looks.old ≡ looks.new + count }
    ensures none { result ≡ false → looks.new ≡ 0 }
    ensures fewer { looks.new ≤ looks.old }
{
    let Some(left) = looks.checked_sub(count as u64) else {
        *looks = 0;
        return false;
    };
    *looks = left;
    true
}

/// The least of `coordinates`; `u32::MAX` if there are none.
fn least_of(coordinates: &[u32]) -> u32
    ensures { (r : ℕ) → r < length coordinates.now → result ≤ slice_index coordinates.now r }
{
    let mut least = u32::MAX;
    for coordinate in coordinates {
        least = least.min(*coordinate);
    }
    least
}

/// Sets the weight of each pair in `sights` to 0 if its segments can come nearer to each other with `coordinates`; all
/// other weights stay.
fn drop_distant(sights: &mut [Sight], coordinates: &[u32])
    requires { ArePairs (length coordinates.now) sights.old }
    ensures { ArePairs (length coordinates.now) sights.new }
{
    for pair in 0..sights.len() {
        if slack_between(coordinates, sights[pair]) != 0 {
            sights[pair].weight = 0;
        }
    }
}

/// Sets the entries of `marks` for these `segments` to `UNREACHED`; all other entries stay.
fn clear_marks(marks: &mut [u16], segments: &[u16])
    requires { AreSegments (length marks.old) segments.now }
    ensures { (r : ℕ) → slice_index marks.new r ≤ slice_index marks.old r }
{
    for segment in segments {
        marks[usize::from(*segment)] = UNREACHED;
    }
}

/// Adds `slack` to the coordinate of each of `segments` in `coordinates`, and returns true; false if one would be above
/// 4,294,967,295: those of earlier segments have then changed.
fn raise(coordinates: &mut [u32], segments: &[u16], slack: u32) -> bool
    requires { AreSegments (length coordinates.old) segments.now }
{
    for segment in segments {
        let Some(raised) = coordinates[usize::from(*segment)].checked_add(slack) else {
            return false;
        };
        coordinates[usize::from(*segment)] = raised;
    }
    true
}

/// Walks back from `target` on the path that `marks` give; adds `units` in `sights` to the weights of pairs that the
/// path walks up, takes them from those that it walks down, and returns true. False if a weight would leave its range:
/// those nearer to `target` have then changed.
fn shift(sights: &mut [Sight], marks: &[u16], target: u16, units: u32) -> bool
    requires few { length sights.old ≤ MAX_SIGHTS }
    requires pairs { ArePairs (length marks.now) sights.old }
    requires marks { AreMarks (length sights.old) marks.now }
    requires target { target < length marks.now }
    ensures { ArePairs (length marks.now) sights.new }
{
    let mut segment = target;
    for _ in 0..marks.len() {
        let mark = marks[usize::from(segment)];
        if mark < PAIRS {
            break;
        }
        let sight = &mut sights[usize::from(mark - PAIRS)];
        let is_up = sight.behind == segment;
        let shifted = if is_up {
            sight.weight.checked_add(units)
        } else {
            sight.weight.checked_sub(units)
        };
        let Some(weight) = shifted else {
            return false;
        };
        sight.weight = weight;
        segment = if is_up { sight.before } else { sight.behind };
    }
    true
}

/// How far the segments of the pair `sight` can come nearer to each other with `coordinates`: their difference minus 1,
/// or 0 if the first does not have the lesser one.
fn slack_between(coordinates: &[u32], sight: Sight) -> u32
    requires { IsPair (length coordinates.now) sight }
{
    let before = coordinates[usize::from(sight.before)];
    let behind = coordinates[usize::from(sight.behind)];
    // Nothing here proves that pairs keep their order: the certificate tests it in the end.
    if before < behind {
        behind - before - 1
    } else {
        0
    }
}
