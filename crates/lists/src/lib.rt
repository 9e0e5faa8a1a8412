// Laws of loops over lists, for every element type, in specs/; and functions over slices: a retain in place, and what a closure says of each element.
#![tactic(auto)]

ghost use Rattle.std.specs.Prelude.{◌≡◌, ◌≤◌, Bool, drop, length, map, take};
ghost use Rattle.lists.specs.Retain.{AnswersBy, retain};

// Moves the items at which `keep` answers `true` to the front, in their order, and counts them; those behind stay as they were.
pub fn retain<T: Copy, F: Fn(&T) -> bool>(items: &mut [T], keep: F) -> usize
    requires { F.IsAlwaysCallable keep }
    ensures kept { (p : T → Bool) → AnswersBy F.Fn keep p → take result items.new ≡ retain p items.old }
    ensures bound { result ≤ length items.old }
    ensures rest { drop result items.new ≡ drop result items.old }
{
    let mut kept = 0;
    // Over places: the slice that is read is also written.
    for i in 0..items.len() {
        let item = items[i];
        if keep(&item) {
            items[kept] = item;
            kept += 1;
        }
    }
    kept
}

// What `part` says of each of the items, as far as the array goes; the other places have `none`.
pub fn each<T, U: Copy, const N: usize, F: Fn(&T) -> U>(items: &[T], none: U, part: F) -> [U; N]
    requires { F.IsAlwaysCallable part }
    ensures { (f : T → U) → AnswersBy F.Fn part f → take (length items.now) result ≡ map f (take N items.now) }
{
    let mut all = [none; N];
    for (i, item) in items[..items.len().min(N)].iter().enumerate() {
        all[i] = part(item);
    }
    all
}
