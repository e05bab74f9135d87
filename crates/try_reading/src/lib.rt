// Reads a request: the numbers of a line, and of these the slices and the output of a call, each from the front of what the ones
// before it left. What cannot be read so is answered by none.
#![tactic(auto)]

ghost use Rattle.std.specs.Prelude.{◌≡◌, ℕ, ◌+◌, ◌-◌, ◌*◌, ◌^◌, ◌≤◌, length, MatchOption};
ghost use Rattle.try_reading.specs.Requests.{Behind, NumbersPut, Pushed, NoSlice, IsSlice, Made, Unmade};
ghost use Rattle.try_reading.specs.Requests.{SlicePut, NoSlicePut, NoRoomAt, IsRoomAt, NoRoom, IsRoom};

// How many elements an output has, and how many of them are lent.
#[derive(Clone, Copy)]
pub struct Room {
    pub elements: usize,
    pub lent: usize,
}

// The place behind the first of these bytes, or the end.
pub fn behind(bytes: &[u8], byte: u8) -> usize
    ensures { Behind byte bytes.now result }
{
    for (i, b) in bytes.iter().enumerate() {
        if *b == byte {
            return i + 1;
        }
    }
    bytes.len()
}

// Puts the numbers of a text, its runs of digits, into what is lent for them, and answers how many there are: none where it does not
// have room for all, or 64 bits do not hold one.
pub fn numbers_of(text: &[u8], out: &mut [u64]) -> Option<usize>
    ensures { NumbersPut text.now out.old out.new result }
{
    let mut count: usize = 0;
    let mut begun: Option<u64> = None;
    for byte in text {
        if byte.is_ascii_digit() {
            let more = grown(begun.unwrap_or(0), *byte)?;
            begun = Some(more);
        } else if let Some(number) = begun {
            count = push(number, out, count)?;
            begun = None;
        }
    }
    match begun {
        Some(number) => push(number, out, count),
        None => Some(count),
    }
}

// A number with a digit more, where 64 bits hold it.
fn grown(number: u64, digit: u8) -> Option<u64>
    requires { 48 ≤ digit }
    ensures { MatchOption result (2 ^ 64 ≤ number * 10 + (digit - 48)) (λ n. n ≡ number * 10 + (digit - 48)) }
{
    number.checked_mul(10)?.checked_add(u64::from(digit - b'0'))
}

// Puts a number behind so many at the front, where there is room, and answers how many there are then.
fn push(number: u64, out: &mut [u64], count: usize) -> Option<usize>
    ensures { Pushed number out.old out.new count result }
{
    if out.len() <= count {
        return None;
    }
    out[count] = number;
    Some(count + 1)
}

// The slice at the front, its length and then its elements, and what stands behind it.
pub fn slice_of(numbers: &[u64]) -> Option<(&[u64], &[u64])>
    ensures { MatchOption result (NoSlice numbers.now) (λ p. IsSlice numbers.now p.0.now p.1.now) }
{
    let (many, rest) = numbers.split_first()?;
    rest.split_at_checked(*many as usize)
}

// Puts the elements of the slice at the front into what is lent for them, and answers them there, with what stands behind the slice.
pub fn slice_at<'a, 'n, T: TryFrom<u64> + Copy>(
    numbers: &'n [u64],
    out: &'a mut [T],
) -> Option<(&'a [T], &'n [u64])>
where
    T::Error: Drop,
    ensures { MatchOption result (NoSlicePut T.try_from_gives numbers.now (length out.old))
        (λ p. SlicePut T.try_from_gives numbers.now p.0.now p.1.now) }
{
    let (elements, rest) = slice_of(numbers)?;
    let many = elements.len();
    if out.len() < many {
        return None;
    }
    make(elements, &mut out[..many])?;
    Some((&out[..many], rest))
}

// Makes each number an element.
fn make<T: TryFrom<u64> + Copy>(numbers: &[u64], out: &mut [T]) -> Option<()>
where
    T::Error: Drop,
    requires { length out.old ≡ length numbers.now }
    ensures { MatchOption result (Unmade T.try_from_gives numbers.now) (λ _. Made T.try_from_gives numbers.now out.new) }
{
    for (i, number) in numbers.iter().enumerate() {
        out[i] = T::try_from(*number).ok()?;
    }
    Some(())
}

// The output at a place, of at most so many elements, which ends a request. How many of them are to be lent is not looked at.
pub fn room_at(numbers: &[u64], at: usize, most: usize) -> Option<Room>
    ensures { MatchOption result (NoRoomAt most numbers.now at) (λ room. IsRoomAt most numbers.now at room.elements room.lent) }
{
    if numbers.len() < 2 || at != numbers.len() - 2 {
        return None;
    }
    let elements = numbers[at] as usize;
    let lent = numbers[at + 1] as usize;
    if most < elements {
        return None;
    }
    Some(Room { elements, lent })
}

// The output that is all of a request, of at most so many elements, where no more of them are to be lent than there are.
pub fn room_of(numbers: &[u64], most: usize) -> Option<Room>
    ensures { MatchOption result (NoRoom most numbers.now) (λ room. IsRoom most numbers.now room.elements room.lent) }
{
    let room = room_at(numbers, 0, most)?;
    if room.elements < room.lent {
        return None;
    }
    Some(room)
}
