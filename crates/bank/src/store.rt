//! The store of a bank, which the caller lends as a slice: checked once, and an array from then on.
ghost use Rattle.std.specs.Prelude.{◌≡◌, length};
ghost use Rattle.bank.specs.Stores.{Accepted, checked};

use fault::{Code, Fault};

/// Refuses a store that has not exactly N words, with code 5. It only looks at the store.
pub fn check<T, const N: usize>(store: &[T]) -> Result<(), Fault>
    ensures { result ≡ checked N (length store.now) }
{
    if store.len() == N {
        Ok(())
    } else {
        Err(Fault::call(Code::Range, 0))
    }
}

/// A store of exactly N words as an array of them; refused as `check` refuses it.
pub fn array<T, const N: usize>(store: &mut [T]) -> Result<&mut [T; N], Fault>
    ensures { Accepted N (length store.old) (λ a. (a.now ≡ store.old) × (a.ghost_name ≡ store.entry.ghost_name)) result }
{
    check::<T, N>(store)?;
    Ok(whole(store))
}

// The same words under the same name. A cast, since std's `as_mut_array` does not promise the name.
fn whole<T, const N: usize>(store: &mut [T]) -> &mut [T; N]
    requires { length store.old ≡ N }
    ensures { (result.now ≡ store.old) × (result.ghost_name ≡ store.entry.ghost_name) }
{
    unsafe { &mut *(store.as_mut_ptr() as *mut [T; N]) }
}
