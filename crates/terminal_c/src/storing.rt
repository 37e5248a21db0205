// The exports of a store.
ghost use Rattle.rules.specs.Promises.Words.{was};
ghost use Rattle.rules_interface.specs.Storing.{StoresNext, StoresCurrent};

// What to do next to store an image.
#[unsafe(no_mangle)]
pub extern "C" fn tillerclover_store_next(
    store: &[u8],
    image: &[u8],
    from: usize,
    address: &mut [u64; 1],
    byte: &mut [u8; 1],
) -> u64
    ensures { StoresNext (was store) (was image) from result address.old byte.old address.new byte.new }
{
    terminal::tillerclover_store_next(store, image, from, address, byte)
}

// Where the current image starts.
#[unsafe(no_mangle)]
pub extern "C" fn tillerclover_store_current(store: &[u8], n: usize, address: &mut [u64; 1]) -> u64
    ensures { StoresCurrent (was store) n result address.old address.new }
{
    terminal::tillerclover_store_current(store, n, address)
}
