//! Reading from JSON which share of its plan a round carries out.
//!
//! It allocates nothing. A list of writers that is right has at most 64 items, and of one that is wrong no item after
//! the first wrong one is read, so at most 65 items are read of any list.

ghost use Rattle.std.specs.Prelude.{◌≡◌, map, option_map};
ghost use Rattle.serde_json.specs.View.{view};
ghost use Rattle.fm_script.specs.Script.{listed_of};
ghost use Rattle.fm_script.specs.ShareJson.{each_of, writers_in, share_in};
ghost use Rattle.fm_share.specs.Shares.{writers_of};

use crate::parse_script::{coordinator_in, is_object_of};
use fm_share::share::Share;
use fm_share::writers::Writers;
use serde_json::Value;

/// The share that a round is asked for by an object: of `writers`, a list as that of coordinators (at least one, each
/// from 1 to 64, none twice), of `each`, from 1 to 4,294,967,295, of both or of neither, and of nothing else. None if
/// the value is anything else. It allocates nothing, and costs the look-up of two members and the reading of at most
/// 65 items.
pub(crate) fn share_in(asked: &Value) -> Option<Share>
    ensures { result ≡ share_in (view asked.now) }
{
    let writers = match asked.get("writers") {
        Some(listed) => Some(writers_in(listed)?),
        None => None,
    };
    let each = match asked.get("each") {
        Some(number) => Some(each_in(number)?),
        None => None,
    };
    let members = usize::from(writers.is_some()) + usize::from(each.is_some());
    if is_object_of(asked, members) {
        Some(Share { writers, each })
    } else {
        None
    }
}

// The limit that a value is.
fn each_in(number: &Value) -> Option<u32>
    ensures { result ≡ each_of (view number.now) }
{
    let each = u32::try_from(number.as_u64()?).ok()?;
    if each == 0 { None } else { Some(each) }
}

// The writers that an array lists.
fn writers_in(listed: &Value) -> Option<Writers>
    ensures { result ≡ writers_in (view listed.now) }
{
    let items = listed.as_array()?;
    writers_of(items.as_slice())
}

// The writers that the items list. The first item stands where no number was found yet.
fn writers_of(items: &[Value]) -> Option<Writers>
    ensures { result ≡ option_map writers_of (listed_of (map view items.now)) }
{
    let mut found = [coordinator_in(items.first()?)?; 64];
    let mut count = 0;
    for item in items {
        let number = coordinator_in(item)?;
        if found[..count].contains(&number) {
            return None;
        }
        found[count] = number;
        count += 1;
    }
    Some(Writers::of(&found[..count]))
}
