// The traffic class of an internal priority: the standard's recommended mapping (01, A frame's path).
#![tactic(auto)]

ghost use Rattle.std.specs.Prelude.{◌≡◌};
ghost use Rattle.class.specs.Meaning.{traffic_class_of};

// A row for each priority 0 to 7, in it a class for each count of classes 1 to 8.
const CLASSES: [[u8; 8]; 8] = [
    [0, 0, 0, 0, 0, 1, 1, 1],
    [0, 0, 0, 0, 0, 0, 0, 0],
    [0, 0, 0, 1, 1, 2, 2, 2],
    [0, 0, 0, 1, 1, 2, 3, 3],
    [0, 1, 1, 2, 2, 3, 4, 4],
    [0, 1, 1, 2, 2, 3, 4, 5],
    [0, 1, 2, 3, 3, 4, 5, 6],
    [0, 1, 2, 3, 4, 5, 6, 7],
];

// The class of `priority` where there are `classes` traffic classes; none for a priority above 7, or a count outside 1 to 8: document 01
// refuses those with its number 3 (`class_number_of` in specs/).
// Ruled out: the class of the count before or after (priority 0 of 8 classes is 1, of 5 it is 0); a class for a count of 0 or 9.
#[tactic(auto, unfolding(crate::specs::Meaning::traffic_class_of, crate::specs::Meaning::class_rows))]
pub fn traffic_class(priority: u8, classes: u8) -> Option<u8>
    ensures { result ≡ traffic_class_of priority classes }
{
    if (priority <= 7) & (1..=8).contains(&classes) {
        Some(CLASSES[priority as usize][(classes - 1) as usize])
    } else {
        None
    }
}
