// The loading of a listing, as the entry for C does it (crate togmelic).
ghost use Rattle.std.specs.Prelude.{◌≡◌, [], ◌∷◌, ◌↔◌, length};
ghost use Rattle.load.specs.Load.{load_of, words_of};
ghost use Rattle.load.specs.Promised.{Loads};
ghost use Rattle.reader.specs.Loading.{records_loaded, refusal_loaded, Refusing};

use text::refusal::Refused;

// Why a listing is refused: the number of the refusal, and the first bad line from 1, or 0. Both are 0 where it is loaded. c/togmelic.h has this layout.
#[repr(C)]
#[derive(Clone, Copy, PartialEq, Eq, Debug, Default)]
pub struct LoadRefusal {
    pub number: usize,
    pub line: usize,
}

// Loads a listing: the number of records, seven words each, zeros behind them, and no refusal. Or 0, every word 0, and the refusal. These are the numbers that
// the interface for C has, since C has no `Result`.
pub fn load_listing(listing: &[u8], words: &mut [u32], refusal: &mut LoadRefusal) -> usize
    ensures records { result ≡ records_loaded listing.now (length words.old) }
    ensures words { words.new ≡ words_of listing.now (length words.old) }
    ensures refusal { (refusal.new.number ∷ refusal.new.line ∷ []) ≡ refusal_loaded listing.now (length words.old) }
    ensures nothing { (result ≡ 0) ↔ Refusing (load_of listing.now (length words.old)) }
    ensures laws { Loads listing.now (length words.old) (load_of listing.now (length words.old)) words.new }
{
    match load::load(listing, words) {
        Ok(n) => {
            *refusal = LoadRefusal::default();
            n
        }
        Err(not_loaded) => {
            let refused = Refused::from(not_loaded);
            *refusal = LoadRefusal {
                number: u32::from(refused.refusal) as usize,
                line: refused.place,
            };
            0
        }
    }
}
