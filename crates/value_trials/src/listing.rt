// A list of bytes and one of structs: what fits, what is refused, and what stays.
// `fill` is the list used by generic code.
ghost use Rattle.std.specs.Prelude.{◌≡◌, [], ◌++◌, length, replicate};
ghost use Rattle.lists.specs.Held.{held, behind};

use lists::List;
use std::test::Fail;

#[derive(Clone, Copy)]
struct Entry {
    number: u64,
    kind: u8,
}

// Appends an item until it is refused.
fn fill<T: Copy>(list: &mut List<T>, item: T)
    ensures held { held list.new ≡ held list.old ++ replicate (length (behind list.old)) item }
    ensures behind { behind list.new ≡ [] }
{
    while list.append(item).is_ok() {}
}

#[test]
fn bytes(rt: HostRuntime) {
    let mut room = [9, 9, 9];
    let mut list = List::new(&mut room);
    assert_eq!(rt; list.append(1), Ok(0));
    assert_eq!(rt; list.append(2), Ok(1));
    assert_eq!(rt; list.set(0, 5), Ok(()));
    assert_eq!(rt; list.set(2, 6), Err(6u8), "a place that is not used");
    assert_eq!(rt; list.used(), [5, 2].as_slice());
    assert_eq!(rt; list.capacity(), 3);
    assert_eq!(rt; room, [5, 2, 9], "what lies behind stays");
}

#[test]
fn entries(rt: HostRuntime) -> Result<(), Fail> {
    let a = Entry { number: 1, kind: 2 };
    let b = Entry { number: 3, kind: 4 };
    let mut room = [a, a];
    let mut list = List::new(&mut room);
    assert!(rt; list.get(0).is_none(), "empty at first");
    fill(&mut list, b);
    assert!(rt; list.append(a).is_err(), "full");
    assert!(rt; list.len() == 2);
    assert!(rt; list.get(usize::MAX).is_none(), "far off");
    let last = list.get(1).copied().ok_or("no entry")?;
    assert!(rt; last.number == 3 && last.kind == 4);
    Ok(())
}
