// The C interface of a store, declared in include/tillerclover_store.h.
// A store and an image are a pointer and a length each; the address and the byte of a write go out through pointers.
ghost use Rattle.rules.specs.Promises.Words.{was};
ghost use Rattle.rules_interface.specs.Storing.{StoresNext, StoresCurrent};

use rules_store::Step;

// What to do next to store an image: 0, nothing, it is the current one; 1, write the byte at the place; 2, nothing, since the store is not one
// for images of this length. Address and byte are written only with 1.
// Rules out: a mark before the last byte that differs; a byte that is there already; 0 while another image is current.
pub fn tillerclover_store_next(
    store: &[u8],
    image: &[u8],
    from: usize,
    address: &mut [u64; 1],
    byte: &mut [u8; 1],
) -> u64
    ensures { StoresNext (was store) (was image) from result address.old byte.old address.new byte.new }
{
    let step = store::next(store, image, from);
    match step {
        Step::Write { at, byte: value } => {
            *address = [at as u64];
            *byte = [value];
            1
        }
        Step::Done => 0,
        Step::Unfit => 2,
    }
}

// Where the current image starts, in a store for images of n bytes: 0, and 0 or n through `address`; or 2, and nothing, since the store is none.
// Rules out: the spare image; an address in a store of another length.
pub fn tillerclover_store_current(store: &[u8], n: usize, address: &mut [u64; 1]) -> u64
    ensures { StoresCurrent (was store) n result address.old address.new }
{
    if store::fits(store.len(), n) {
        *address = [store::current_at(store, n) as u64];
        return 0;
    }
    2
}
