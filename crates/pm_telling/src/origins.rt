// How a value came to be held.

ghost use Rattle.pm_telling.specs.Telling.{origin_of};
ghost use Rattle.pm_object.specs.State.{read_at, value_of};
ghost use Rattle.pm_props.specs.Places.{place_of, same_place, same_property};
ghost use Rattle.std.specs.Prelude.{IfNone, None, find, option_map, ◌&&◌, ◌≡◌};

use pm_object::{Held, Object, Origin, are_same};
use pm_types::PropId;

// Whether the value is one of the property, and is read by who asks this program, if one is asked.
fn is_read_as(h: &Held, sub: Option<u8>, p: PropId) -> bool
    ensures { result ≡ (same_place h.now.place (place_of sub h.now.id) && same_property p h.now.id) }
{
    are_same(h.place, h.id.place(sub)) && h.id == p
}

// How the first of these values that is one of the property, and is read there, came to be held.
fn first_origin(held: &[Held], sub: Option<u8>, p: PropId) -> Option<Origin>
    ensures { result ≡ option_map (λ h. h.origin)
        (find (λ h. same_place h.place (place_of sub h.id) && same_property p h.id) held.now) }
{
    let h = held.iter().find(|h| is_read_as(h, sub, p))?;
    Some(h.origin)
}

/// How the value of a property that is read by who asks this program, if one is asked, came to be held, if it is held.
pub fn origin_of(object: &Object, sub: Option<u8>, p: PropId) -> Option<Origin>
    ensures origin { result ≡ origin_of p (read_at sub object.now.state.held) }
    ensures none { IfNone result (value_of p (read_at sub object.now.state.held) ≡ None) }
{
    first_origin(object.held(), sub, p)
}
