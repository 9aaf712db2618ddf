// A span of places in a row, going round at the last: where the elements of a ring lie.
// Every value of the type is a span of any places: a first place or a length past their end counts as within it.
ghost use Rattle.std.specs.Prelude.{◌≡◌, ◌+◌, ◌-◌, ◌<◌, ◌≤◌, length};
ghost use Rattle.ring.specs.Span.{spanned, place_of, SpanPuts, SpanTakes};
ghost use Rattle.item.specs.First.{Leads};

use item::Refusal;

#[derive(Clone, Copy)]
pub struct Span {
    head: usize,
    len: usize,
}

/// The place that lies so many after another, going round at the last of `places` places.
fn place_after(place: usize, n: usize, places: usize) -> usize
    requires place { place < places }
    requires once { n ≤ places }
    ensures plain { n < places - place → result ≡ place + n }
    ensures round { places - place ≤ n → result ≡ n - (places - place) }
    ensures within { result < places }
{
    let above = places - place;
    if n < above { place + n } else { n - above }
}

/// The place after another, going round at the last of `places` places. This is `place_after` by 1, in half the steps.
fn next_place(place: usize, places: usize) -> usize
    requires { place < places }
    ensures plain { 1 < places - place → result ≡ place + 1 }
    ensures round { places - place ≤ 1 → result ≡ 0 }
{
    if place + 1 == places { 0 } else { place + 1 }
}

impl Span {
    /// A span of no places.
    pub fn new() -> Span
        ensures empty { result.len ≡ 0 }
    {
        Span { head: 0, len: 0 }
    }

    /// How many elements lie in the span.
    pub fn len<T>(&self, places: &[T]) -> usize
        ensures value { result ≡ length (spanned self.now places.now) }
        ensures within { result ≤ length places.now }
    {
        self.len.min(places.len())
    }

    // The place of the first.
    fn first_place(&self, places: usize) -> usize
        ensures value { result ≡ place_of self.now places }
        ensures fits { 0 < places → result < places }
    {
        if self.head < places { self.head } else { 0 }
    }

    /// The first, which stays, or none exactly when the span is empty.
    pub fn first<T: Copy>(&self, places: &[T]) -> Option<T>
        ensures leads { Leads (spanned self.now places.now) result }
    {
        if self.len(places) == 0 {
            return None;
        }
        Some(places[self.first_place(places.len())])
    }

    /// One more at the end. Refused 8 exactly when the places are all in the span.
    #[tactic(auto, using(crate::proofs::Held::one_more))]
    pub fn put<T: Copy>(&mut self, places: &mut [T], x: T) -> Result<(), Refusal>
        ensures puts { SpanPuts self.old places.old x result self.new places.new }
    {
        let len = self.len(places);
        if len == places.len() {
            return Err(Refusal::NoSpace);
        }
        let first = self.first_place(places.len());
        // The place is written before head and length: written after them, it would have both read again at each turn of a loop.
        places[place_after(first, len, places.len())] = x;
        self.head = first;
        self.len = len + 1;
        Ok(())
    }

    /// The first leaves, or none exactly when the span is empty.
    #[tactic(auto, using(crate::proofs::Held::one_less))]
    pub fn take<T: Copy>(&mut self, places: &[T]) -> Option<T>
        ensures takes { SpanTakes self.old places.now result self.new }
    {
        let x = self.first(places)?;
        self.len = self.len(places) - 1;
        self.head = next_place(self.first_place(places.len()), places.len());
        Some(x)
    }

    /// Gives every place back.
    pub fn clear(&mut self)
        ensures empty { self.new.len ≡ 0 }
    {
        self.len = 0;
    }
}
