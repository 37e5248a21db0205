// Who asks, and when: all that an access row is compared with.
// The sender is its own credential row, or no bytes, and its connection.
#[derive(Clone, Copy)]
pub struct Asker<'a> {
    pub clock: u32,
    pub cred: &'a [u8],
    pub connection: u16,
}
