// A bundle with the table of its offsets.

ghost use Rattle.bundle_facts.specs.Places.{Found};

// A bundle, and where the records are that the desk asks for: the table says it of this bundle. What is found borrows from the bundle alone, so that
// the table may end before it.
#[derive(Clone, Copy)]
pub struct Facts<'a, 'p> {
    pub bundle: &'a [u8],
    pub places: &'p [usize; super::ENTRIES],
    ghost found: { Found bundle.now places.now },
}
