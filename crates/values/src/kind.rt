// What every kind of value has: a kind number, a home value, changes, and two ways to be stored.
ghost use Rattle.std.specs.Prelude.{◌≡◌, ℕ, ◌⊎◌, List, Ok, Err, Result};
ghost use Rattle.values.specs.Packing.{Bytes16, BeginsAs};

// A kind of value. The ghost members say what the functions answer; the laws hold for every kind, so that what
// stores values is proved once for all kinds.
pub trait Kind {
    type Value: Copy;

    type Change: Copy;
    // The plain numbers of a value, as a host keeps them in memory.
    type Numbers: Copy;

    // The number by which an image says of which kind its rows are, in the code and in contracts.
    const NUMBER: u8;

    ghost NUMBER: { ℕ };

    // The value that a record of a new show has.
    ghost home: { Self.Value };

    // The value after a change; it depends on the value and the change alone.
    ghost applied: { Self.Value → Self.Change → Self.Value };

    // The 16 bytes of a value.
    ghost packed: { Self.Value → List ℕ };

    // The value of 16 bytes, or the place of the first offending byte where no value packs to them.
    ghost unpacked: { List ℕ → Result Self.Value ℕ };

    // The plain numbers of a value, and the value that plain numbers read as.
    ghost numbers: { Self.Value → Self.Numbers };

    ghost reading: { Self.Numbers → Self.Value };

    fn home() -> Self::Value
        ensures { result ≡ home };

    fn apply(v: Self::Value, c: Self::Change) -> Self::Value
        ensures { result ≡ applied v c };

    fn pack(v: Self::Value) -> [u8; 16]
        ensures { result ≡ packed v };

    // The u8 is a place among the bytes and no code, so that an error type of its own would say no more.
    fn unpack(b: [u8; 16]) -> Result<Self::Value, u8>
        ensures { result ≡ unpacked b };

    fn to_numbers(v: Self::Value) -> Self::Numbers
        ensures { result ≡ numbers v };

    fn of_numbers(n: Self::Numbers) -> Self::Value
        ensures { result ≡ reading n };

    // A packed value is 16 bytes.
    ghost packed_size: { (v : Self.Value) → Bytes16 (packed v) };

    // A packed value unpacks to itself.
    ghost unpacks_packed: { (v : Self.Value) → unpacked (packed v) ≡ Ok v };

    // Bytes that unpack are those that their value packs to, so bytes that no value packs to are refused.
    ghost packs_unpacked: { (b : List ℕ) (v : Self.Value) → Bytes16 b → unpacked b ≡ Ok v → packed v ≡ b };

    // Before the byte that a refusal names, the bytes begin as some value's do.
    ghost first_offending: { (b : List ℕ) (k : ℕ) → Bytes16 b → unpacked b ≡ Err k → BeginsAs packed b k };

    // The numbers of a value read as that value.
    ghost reads_numbers: { (v : Self.Value) → reading (numbers v) ≡ v };

    // Numbers that no value has read as home.
    ghost other_numbers: { (n : Self.Numbers) → (numbers (reading n) ≡ n) ⊎ (reading n ≡ home) };
}
