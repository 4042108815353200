// Arrays with a length beside them, of a fixed memory: the elements that such an array holds, and one more.
#![tactic(auto)]

ghost use Rattle.std.specs.Prelude.{◌≡◌, ◌+◌, cond, length, ltb, min, set, take};

// The first of an array, as many as the length says, all of them at most.
#[tactic(auto, using(std::proofs::lemmas::List::take_min))]
pub fn held<T>(items: &[T], len: u8) -> &[T]
    ensures { result.now ≡ take len items.now }
{
    &items[..usize::from(len).min(items.len())]
}

// One joins last, and a full array stays as it is: gives how many it holds then.
pub fn join_last<T: Copy>(items: &mut [T], len: u8, x: T) -> u8
    ensures items { items.new ≡ cond (ltb len (length items.old)) (set items.old len x) items.old }
    ensures len { result ≡ cond (ltb len (length items.old)) (min (len + 1) 255) len }
{
    let n = usize::from(len);
    if n < items.len() {
        items[n] = x;
        return len.saturating_add(1);
    }
    len
}
