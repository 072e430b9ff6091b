// Why a call is refused: the number of the first of these questions of documents 01 and 02 that does not hold.
ghost use Rattle.std.specs.Prelude.{◌≡◌};
ghost use Rattle.geom.specs.Refusals.{number};

#[derive(Clone, Copy, Debug, PartialEq, Eq)]
pub enum Refusal {
    // The lent store has exactly 16 × C pixels
    StoreLength = 1,
    // C is 1 to 1,048,576
    Capacity = 2,
    // The id is below 16 and in use
    UnknownId = 3,
    // An id is unused
    NoFreeId = 4,
    // Coordinates and sizes are at most 32,767
    TooLarge = 5,
    // w × h is at most C
    WindowSize = 6,
    // The stride is at least 1
    Stride = 7,
    // The screen's width and height are 1 to 32,767, its length their product
    ScreenSize = 8,
    // The lent list holds 4 numbers for each visible rectangle
    ListLength = 9,
    // There is an event to pop
    NoEvent = 10,
    // There is a window to take the event
    NoWindow = 11,
    // Its queue has a free place
    QueueFull = 12,
    // The part lies in the pixels
    OutsidePixels = 13,
    // x + w and y + h are at most 4,294,967,295
    EdgeTooLarge = 14,
    // The display has pixels, its x + w and y + h are at most 32,767
    DisplaySize = 15,
    // Fewer than eight displays are present
    TooManyDisplays = 16,
    // The layer is at most 1
    Layer = 17,
    // The bytes are a valid sheet
    NoSheet = 18,
    // The buffer holds the sheet, or the list 4 numbers for each of its rectangles
    SheetLength = 19,
    // A walk was begun, and is neither over nor dropped
    NoWalk = 20,
    // The event is no KeyFire, asked before every other
    KeyFire = 21,
    // The look fits, or its factor is 0.25, 0.5, 1, 2 or 4 and its corner in quarters, 0 to 32,767
    Look = 22,
    // The target's width and height are 1 to 32,767, its length their product
    TargetSize = 23,
    // The window is shown and has pixels
    NotInView = 24,
    // At most 32 points, each x with its y, and 3 numbers for each in the list
    Points = 25,
    // The run has at most 4,096 times
    RunLength = 26,
    // No time is below the one before it
    TimesDescend = 27,
    // The call that is meant is 0, 1 or 2
    WhichCall = 28,
}

impl Refusal {
    pub fn number(self) -> u32
        ensures { result ≡ number self }
    {
        self as u32
    }
}

impl From<Refusal> for u32 {
    ghost from_gives = { λ refusal n. n ≡ number refusal };

    fn from(refusal: Refusal) -> u32 {
        refusal.number()
    }
}
