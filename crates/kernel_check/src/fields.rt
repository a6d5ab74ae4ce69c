// The check of the fields of a store, slot by slot: what is left to ask once the links have their shape.
ghost use Rattle.layout.specs.WellFormed.{Sized};
ghost use Rattle.layout.specs.Fields.{Fields};
ghost use Rattle.layout.specs.Decides.{Decides};

use check_money::total_fits;
use check_objects::objects_fit;
use check_scan::scan_caps;

// All of it.
pub(crate) fn check_fields(bytes: &[u8], links: &[u16], words: &[u32]) -> bool
    requires { Sized bytes.now links.now words.now }
    ensures { Decides (Fields bytes.now links.now words.now) result }
{
    if !objects_fit(bytes, links, words) {
        return false;
    }
    let Some(masters) = scan_caps(links, words) else {
        return false;
    };
    total_fits(bytes, links, words, masters)
}
