//! Members of a list put in place of others. It takes no memory.

ghost use Rattle.std.specs.Prelude.{◌≡◌, ◌+◌, ◌-◌, ◌≤◌, ◌++◌, length, take, drop};
ghost use Rattle.std.specs.Vec.{vec_len, vec_capacity};
ghost use Rattle.mdchunks.specs.Lists.{replaced};

use std::mem;

/// Puts the members of `add` in place of `del` members at `at`. The room was reserved before. What stands behind them is
/// moved only where there are more or fewer of them.
pub(crate) fn splice<T: Drop>(items: &mut Vec<T>, at: usize, del: usize, add: &mut Vec<T>)
    requires within { at + del ≤ vec_len items.old }
    requires room { vec_len items.old + vec_len add.old ≤ vec_capacity items.old + del }
    ensures items { items.new.items ≡ replaced items.old.items at del add.old.items }
    ensures capacity { vec_capacity items.old ≤ vec_capacity items.new }
{
    let both = del.min(add.len());
    swap_members(items, at, add, both);
    cut_front(add, both);
    splice_rest(items, at + both, del - both, add);
}

/// Exchanges the members at `at` with as many as there are at the front of `add`.
fn swap_members<T: Drop>(items: &mut Vec<T>, at: usize, add: &mut Vec<T>, both: usize)
    requires within { at + both ≤ vec_len items.old }
    requires enough { both ≤ vec_len add.old }
    ensures items { items.new.items ≡ take at items.old.items ++ take both add.old.items ++ drop (at + both) items.old.items }
    ensures rest { drop both add.new.items ≡ drop both add.old.items }
    ensures lengths { (vec_len items.new ≡ vec_len items.old) × (vec_len add.new ≡ vec_len add.old) }
    ensures room { vec_capacity items.new ≡ vec_capacity items.old }
{
    for i in 0..both {
        mem::swap(&mut items[at + i], &mut add[i]);
    }
}

/// Drops the first `n` members.
fn cut_front<T: Drop>(items: &mut Vec<T>, n: usize)
    requires { n ≤ vec_len items.old }
    ensures items { items.new.items ≡ drop n items.old.items }
    ensures length { vec_len items.new + n ≡ vec_len items.old }
{
    items.drain(..n);
}

/// Replaces `del` members at a place by others, and moves all that stands behind it.
fn splice_rest<T: Drop>(items: &mut Vec<T>, at: usize, del: usize, add: &mut Vec<T>)
    requires within { at + del ≤ vec_len items.old }
    requires room { vec_len items.old + vec_len add.old ≤ vec_capacity items.old + del }
    ensures items { items.new.items ≡ replaced items.old.items at del add.old.items }
    ensures capacity { vec_capacity items.old ≤ vec_capacity items.new }
{
    let kept = items.len() - del;
    // the front, the tail, the members that go
    rotate_from(items, at, del);
    items.truncate(kept);
    // the front, the tail, the new members
    items.append(add).unwrap();
    rotate_from(items, at, kept - at);
}

/// Moves the first `n` members behind a place to the end.
pub(crate) fn rotate_from<T: Drop>(items: &mut Vec<T>, at: usize, n: usize)
    requires { at + n ≤ vec_len items.old }
    ensures items { items.new.items ≡ take at items.old.items ++ drop (at + n) items.old.items ++ take n (drop at items.old.items) }
    ensures room { (vec_len items.new ≡ vec_len items.old) × (vec_capacity items.new ≡ vec_capacity items.old) }
{
    items[at..].rotate_left(n);
}
