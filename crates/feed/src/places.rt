// Document 01, "The bank": a place holds a, b and c of a sample, two bytes each, big-endian.
ghost use Rattle.std.specs.Prelude.{◌≡◌, cond, ◌+◌, ◌*◌, ◌/◌, ◌≤◌, eqb, length};
ghost use Rattle.model.specs.Filter.{lent_samples};
ghost use Rattle.feed.specs.Places.{sample_of, samples_of, place_of, with_place};
ghost use Rattle.feed.specs.Ring.{oldest_first};
ghost use Rattle.feed.specs.Inside.{numbers_in};

use model::Sample;

// The sample in six bytes: a, b, c.
pub fn sample_of(p: [u8; 6]) -> Sample
    ensures { result ≡ sample_of p }
{
    Sample {
        a: i16::from_be_bytes([p[0], p[1]]),
        b: i16::from_be_bytes([p[2], p[3]]),
        c: i16::from_be_bytes([p[4], p[5]]),
    }
}

// A sample's six bytes: a, b, c.
pub fn place_of(s: Sample) -> [u8; 6]
    ensures { result ≡ place_of s }
{
    let a = s.a.to_be_bytes();
    let b = s.b.to_be_bytes();
    let c = s.c.to_be_bytes();
    [a[0], a[1], b[0], b[1], c[0], c[1]]
}

// Numbers filled from bytes, two bytes each.
fn put_numbers(numbers: &mut [i16], bytes: &[u8])
    requires { length bytes.now ≡ 2 * length numbers.old }
    ensures { numbers.new ≡ numbers_in (length bytes.now / 2) bytes.now }
{
    for (i, number) in numbers.iter_mut().enumerate() {
        let at = 2 * i;
        *number = i16::from_be_bytes([bytes[at], bytes[at + 1]]);
    }
}

// One of the thirty-one places, by its number: 0 to 30.
#[derive(Clone, Copy)]
pub(crate) struct Place {
    pub(crate) number: u8,
    ghost one_of_31: { number ≤ 30 },
}

impl Place {
    // The place after it: 30 to 0.
    pub(crate) fn next(self) -> Place
        ensures { result.number ≡ cond (eqb self.number 30) 0 (self.number + 1) }
    {
        Place {
            number: if self.number == 30 {
                0
            } else {
                self.number + 1
            },
        }
    }

    // A window filled with the samples of the thirty-one places from this one round: where all are filled, the oldest first.
    fn put_window(self, window: &mut [i16; 93], places: &[u8; 186])
        ensures { lent_samples 31 window.new ≡ oldest_first self.number (samples_of 31 places.now) }
    {
        let (newer, older) = places.split_at(6 * usize::from(self.number));
        let split = older.len() / 2;
        put_numbers(&mut window[..split], older);
        put_numbers(&mut window[split..], newer);
    }

    // The samples of the thirty-one places from this one round: where all are filled, the oldest first.
    pub(crate) fn window(self, places: &[u8; 186]) -> [i16; 93]
        ensures { lent_samples 31 result ≡ oldest_first self.number (samples_of 31 places.now) }
    {
        let mut window = [0; 93];
        self.put_window(&mut window, places);
        window
    }

    // The samples of the thirty-one places with a sample put in this one, from the place after it round: it comes last.
    pub(crate) fn window_with(self, places: &[u8; 186], s: Sample) -> [i16; 93]
        ensures { lent_samples 31 result ≡ oldest_first (cond (eqb self.number 30) 0 (self.number + 1)) (samples_of 31 (with_place places.now self.number s)) }
    {
        let mut window = [0; 93];
        self.next().put_window(&mut window, places);
        window[90..].copy_from_slice(&[s.a, s.b, s.c]);
        window
    }

    // A sample put in this place.
    #[tactic(auto, unfolding(crate::specs::Places::with_place))]
    pub(crate) fn put(self, places: &mut [u8; 186], s: Sample)
        ensures { places.new ≡ with_place places.old self.number s }
    {
        let at = 6 * usize::from(self.number);
        places[at..at + 6].copy_from_slice(&place_of(s));
    }
}
