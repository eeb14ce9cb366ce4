ghost use Rattle.std.specs.Prelude.{◌≡◌, ◌≢◌, ◌↔◌, ℕ, ◌<◌, ◌≤◌, [], length, insert, slice_index_or, Some, None, IsTrue, OnOk, IfOk, IfErr, IfSome, IsSome, option_map};
ghost use Rattle.std.specs.Option.{option_copied};
ghost use Rattle.stm_memory.specs.Chains.{found, seen_of, AreInOrder, StandsAt, FitsAt};
ghost use Rattle.stm_memory.specs.Entries.{estimate_of, value_at};
ghost use Rattle.stm_memory.specs.Resolves.{IsNearestBelow, IsWithinDigitsOf};
ghost use Rattle.stm_memory.specs.declared.link.Link.{Link};
ghost use Rattle.smallvec.specs.SmallVec.{HasRoomFor, small_vec_len};

use crate::link::Link;
use crate::version::Version;
use issuer_rows::RowVal;
use smallvec::SmallVec;
use std::alloc::{AllocError, Global};
use std::marker::Model;

/// The entries of one row, in the order of their indices. Many rows are written once, so the first entry stands in the chain itself, and
/// those behind it in an allocation.
#[derive(Drop)]
pub(crate) struct Chain {
    links: SmallVec<Link, 1>,
}

impl Model for Chain {
    ghost use Rattle.std.specs.Prelude.{◌-◌};
    ghost use Rattle.smallvec.specs.SmallVec.{small_vec_len};
    ghost use Rattle.stm_memory.specs.Chains.{Chain, AreInOrder};

    ghost Value = { Chain };

    ghost view = { λ c. record { links = c.links.items; room = c.links.capacity - small_vec_len c.links } };

    ghost invariant = { λ c. AreInOrder c.links.items };
}

impl Chain {
    /// No entries.
    pub(crate) fn new(alloc: Global) -> Chain
        ensures { result.links ≡ [] }
    {
        Chain {
            links: SmallVec::new(alloc),
        }
    }

    /// Makes room for one more entry. For the first one there is room already.
    pub(crate) fn reserve(&mut self) -> Result<(), AllocError>
        ensures links { self.new.links ≡ self.old.links }
        ensures room { OnOk result (0 < self.new.room) }
        ensures more { self.old.room ≤ self.new.room }
    {
        self.links.reserve(1)
    }

    /// The nearest entry below the index, if there is one.
    pub(crate) fn nearest_below(&self, index: u32) -> Option<&Link>
        ensures { IsNearestBelow (found self.now.links) index (seen_of (option_copied result)) }
    {
        let links = self.links.as_slice();
        let place = place_below(links, index);
        link_before(links, place, index)
    }

    /// The same, by halves, and how many indices were compared to find it.
    pub(crate) fn counted_below(&self, index: u32) -> (Option<&Link>, u32)
        ensures seen { IsNearestBelow (found self.now.links) index (seen_of (option_copied result.0)) }
        ensures comparisons { IsWithinDigitsOf result.1 (length self.now.links) }
        ensures order { AreInOrder self.now.links }
    {
        let links = self.links.as_slice();
        let (place, comparisons) = count_below(links, index);
        (link_before(links, place, index), comparisons)
    }

    /// Writes this value as the version's entry, over the one that its index has. Returns whether its index had none.
    pub(crate) fn put(&mut self, version: Version, value: &RowVal) -> bool
        requires { 0 < self.old.room }
        ensures own { found self.new.links version.index ≡ Some (value_at version.incarnation value.now) }
        ensures others { (i : ℕ) → i ≢ version.index → found self.new.links i ≡ found self.old.links i }
        ensures new { IsTrue result ↔ (found self.old.links version.index ≡ None) }
    {
        match place_of(self.links.as_slice(), version.index) {
            Ok(place) => {
                self.links.as_mut_slice()[place] = Link {
                    index: version.index,
                    incarnation: version.incarnation,
                    value: Some(*value),
                };
                false
            }
            Err(place) => {
                put_in(&mut self.links, place, version, value);
                true
            }
        }
    }

    /// The index of the first entry, where another one stands below this index: no message from there on sees the first.
    pub(crate) fn superseded(&self, index: u32) -> Option<u32>
        ensures { IfSome result (λ first. (next : ℕ) × (first < next) × (next < index) × IsSome (found self.now.links next)) }
    {
        let links = self.links.as_slice();
        if links.len() > 1 && links[1].index < index {
            return Some(links[0].index);
        }
        None
    }

    /// Takes the index's entry out, if it has one.
    pub(crate) fn take_out(&mut self, index: u32)
        ensures own { found self.new.links index ≡ None }
        ensures others { (i : ℕ) → i ≢ index → found self.new.links i ≡ found self.old.links i }
        ensures room { self.old.room ≤ self.new.room }
    {
        if let Ok(place) = place_of(self.links.as_slice(), index) {
            self.links.remove(place);
        }
    }

    /// The index's entry, if it has one, is an ESTIMATE from now on.
    pub(crate) fn to_estimate(&mut self, index: u32)
        ensures own { found self.new.links index ≡ option_map estimate_of (found self.old.links index) }
        ensures others { (i : ℕ) → i ≢ index → found self.new.links i ≡ found self.old.links i }
    {
        if let Ok(place) = place_of(self.links.as_slice(), index) {
            self.links.as_mut_slice()[place].value = None;
        }
    }
}

// Inserts a link at this place, where there is room for it. Mostly that is the last place. It is a call of its own so that the value is
// copied once.
#[inline(never)]
#[tactic(auto, using(std::proofs::lemmas::List::Edits::insert_end))]
fn put_in(links: &mut SmallVec<Link, 1>, place: usize, version: Version, value: &RowVal)
    requires within { place ≤ length links.old.items }
    requires room { HasRoomFor links.old 1 }
    ensures { links.new.items ≡ insert links.old.items place (record { index = version.index; incarnation = version.incarnation; value = Some value.now }) }
{
    let Version { index, incarnation } = version;
    let link = Link {
        index,
        incarnation,
        value: Some(*value),
    };
    if place == links.len() {
        links.push_reserved(link);
        return;
    }
    match links.insert(place, link) {
        Ok(()) => {}
        Err(_) => unreachable!(),
    }
}

// The link before this place, which is the last one below the index.
fn link_before(links: &[Link], place: usize, index: u32) -> Option<&Link>
    requires order { AreInOrder links.now }
    requires within { place ≤ length links.now }
    requires below { (k : ℕ) (d : Link) → k < place → (slice_index_or links.now k d).index < index }
    requires above { (k : ℕ) (d : Link) → place ≤ k → k < length links.now → index ≤ (slice_index_or links.now k d).index }
    ensures { IsNearestBelow (found links.now) index (seen_of (option_copied result)) }
{
    if place == 0 {
        return None;
    }
    Some(&links[place - 1])
}

// Where the index's link stands, or else where it would stand.
fn place_of(links: &[Link], index: u32) -> Result<usize, usize>
    requires { AreInOrder links.now }
    ensures there { IfOk result (λ place. StandsAt links.now index place) }
    ensures absent { IfErr result (λ place. FitsAt links.now index place) }
{
    let place = place_below(links, index);
    if place < links.len() && links[place].index == index {
        Ok(place)
    } else {
        Err(place)
    }
}

// How many links have an index below this one. Most messages see what was written last and write behind it, so the last link is looked at
// first.
fn place_below(links: &[Link], index: u32) -> usize
    requires { AreInOrder links.now }
    ensures within { result ≤ length links.now }
    ensures below { (k : ℕ) (d : Link) → k < result → (slice_index_or links.now k d).index < index }
    ensures above { (k : ℕ) (d : Link) → result ≤ k → k < length links.now → index ≤ (slice_index_or links.now k d).index }
{
    let count = links.len();
    if count > 0 && links[count - 1].index < index {
        return count;
    }
    let (place, _comparisons) = count_below(links, index);
    place
}

// How many links have an index below this one, by halves; and how many indices were compared to find out.
fn count_below(links: &[Link], index: u32) -> (usize, u32)
    requires { AreInOrder links.now }
    ensures within { result.0 ≤ length links.now }
    ensures below { (k : ℕ) (d : Link) → k < result.0 → (slice_index_or links.now k d).index < index }
    ensures above { (k : ℕ) (d : Link) → result.0 ≤ k → k < length links.now → index ≤ (slice_index_or links.now k d).index }
    ensures comparisons { IsWithinDigitsOf result.1 (length links.now) }
{
    let mut low = 0;
    let mut high = links.len();
    let mut comparisons = 0;
    while low < high {
        let middle = low + (high - low) / 2;
        comparisons += 1;
        if links[middle].index < index {
            low = middle + 1;
        } else {
            high = middle;
        }
    }
    (low, comparisons)
}
