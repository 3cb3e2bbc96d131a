//! How a caller that knows its regions uses the queues of one memory, and three runs as examples.
ghost use Rattle.std.specs.Prelude.{◌≡◌, ℕ, ◌-◌, ◌≤◌, [], ◌∷◌, ◌++◌, length, IfOk, slice_index_or};
ghost use Rattle.queue.specs.Contents.{newest};
ghost use Rattle.queue.specs.Regions.{held, Stands};

use queue::{Misfit, Ring, Stand, keep_at, read_at};
use std::test::Fail;

/// Two queues side by side in one memory: each has gained its own element, and nothing of the other's.
fn keep_both<T: Copy>(
    memory: &mut [T],
    middle: usize,
    left: Stand,
    right: Stand,
    x: T,
    y: T,
) -> Result<(Stand, Stand), Misfit>
    ensures left { IfOk result (λ next. held memory.new 0 middle next.0 ≡ newest middle (held memory.old 0 middle left ++ x ∷ [])) }
    ensures right { IfOk result (λ next. held memory.new middle (length memory.old) next.1 ≡ newest (length memory.old - middle) (held memory.old middle (length memory.old) right ++ y ∷ [])) }
{
    let end = memory.len();
    let left = keep_at(memory, 0, middle, left, x)?;
    let right = keep_at(memory, middle, end, right, y)?;
    Ok((left, right))
}

/// A queue keeps the newest of all that came to it.
fn keep_all<T: Copy>(memory: &mut [T], from: usize, to: usize, mut at: Stand, values: &[T]) -> Stand
    requires { Stands (length memory.old) from to at }
    ensures stands { Stands (length memory.old) from to result }
    ensures held { held memory.new from to result ≡ newest (to - from) (held memory.old from to at ++ values.now) }
{
    for x in values {
        at = keep_at(memory, from, to, at, *x).unwrap();
    }
    at
}

/// The i-th oldest element, or else one of the caller's own.
fn read_or<T: Copy>(memory: &[T], from: usize, to: usize, at: Stand, i: usize, default: T) -> T
    requires { Stands (length memory.now) from to at }
    ensures { result ≡ slice_index_or (held memory.now from to at) i default }
{
    read_at(memory, from, to, at, i).unwrap_or(default)
}

const EMPTY: Stand = Stand { head: 0, len: 0 };

#[test]
fn goes_round_and_stands_again(rt: HostRuntime) {
    let mut slots = [0u8; 3];
    let mut queue = Ring::new(&mut slots);
    for x in 1..5u8 {
        // The fourth finds the queue full.
        assert_eq!(rt; queue.push(x).is_ok(), x < 4);
    }
    assert_eq!(rt; queue.pop(), Some(1));
    queue.keep(5);
    let at = queue.stand();
    let mut later = Ring::new(&mut slots);
    assert!(rt; later.resume(at).is_ok());
    assert_eq!(rt;
        [later.get(0), later.get(2), later.get(3)],
        [Some(2), Some(5), None]
    );
    assert_eq!(rt; [later.len(), later.capacity(), later.free()], [3, 3, 0]);
}

#[test]
fn lives_beside_another_queue(rt: HostRuntime) -> Result<(), Fail> {
    let mut memory = [0u8; 5];
    let left = keep_all(&mut memory, 0, 2, EMPTY, &[1, 2, 3]);
    let right = keep_all(&mut memory, 2, 5, EMPTY, &[4, 5]);
    assert_eq!(rt; read_or(&memory, 2, 5, right, 1, 0), 5);
    let Ok((left, right)) = keep_both(&mut memory, 2, left, right, 6, 7) else {
        return Err(Fail::new("refused"));
    };
    assert_eq!(rt; read_at(&memory, 0, 2, left, 0), Some(3));
    assert_eq!(rt; read_at(&memory, 2, 5, right, 2), Some(7));
    Ok(())
}

#[test]
fn refuses_what_does_not_fit(rt: HostRuntime) {
    let mut memory = [8u8, 9];
    let no_slot = Stand { head: 2, len: 1 };
    let too_many = Stand { head: 0, len: 3 };
    assert!(rt; keep_at(&mut memory, 1, 3, EMPTY, 7).is_err());
    assert!(rt; keep_at(&mut memory, 0, 2, no_slot, 7).is_err());
    assert!(rt; keep_at(&mut memory, 0, 2, too_many, 7).is_err());
    // A queue of no slots takes what comes, and keeps none of it.
    assert!(rt; keep_at(&mut memory, 1, 1, EMPTY, 7).is_ok());
    assert_eq!(rt; memory, [8, 9]);
}
