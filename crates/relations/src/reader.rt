// What conditions are read over: a text, and a list of properties with its slots.
use property_list::slots::SLOTS;

// That the slots are those of the properties is asked where a name is looked up: a ghost field holds no fact that finds a position.
#[derive(Clone, Copy)]
pub struct Reader<'a> {
    pub text: &'a [u8],
    pub properties: &'a [u8],
    pub slots: &'a [usize; SLOTS],
}
