ghost use Rattle.std.specs.Prelude.{◌≡◌, ◌<◌, ◌++◌, OnOk};
ghost use Rattle.std.specs.List.{flat_map, range_with_len};
ghost use Rattle.code_text.specs.Texts.{live_text, rest_line, rest_of, rests_text, slot_text};

use handler_code::Rest;
use printed_text::Text;
use tw_base::Memory;

fn add_slot(out: &mut Text, live: u32, slot: u32) -> Result<(), Memory>
    requires { slot < 32 }
    ensures { OnOk result (out.new ≡ out.old ++ slot_text live slot) }
{
    if live >> slot & 1 == 1 {
        write!(out, " {slot}")?;
    }
    Ok(())
}

fn add_slots(out: &mut Text, live: u32) -> Result<(), Memory>
    ensures { OnOk result (out.new ≡ out.old ++ flat_map (slot_text live) (range_with_len 0 32)) }
{
    for slot in 0..32 {
        add_slot(out, live, slot)?;
    }
    Ok(())
}

fn add_live(out: &mut Text, live: u32) -> Result<(), Memory>
    ensures { OnOk result (out.new ≡ out.old ++ live_text live) }
{
    if live == 0 {
        out.add(b" none")
    } else {
        add_slots(out, live)
    }
}

fn add_rest_line(out: &mut Text, number: usize, rest: &Rest) -> Result<(), Memory>
    ensures { OnOk result (out.new ≡ out.old ++ rest_line number rest.now) }
{
    let at = rest.at;
    write!(out, "rest {number} at {at} live")?;
    add_live(out, rest.live)?;
    out.add(b"\n")
}

fn add_rest(out: &mut Text, door: usize, number: usize, rest: &Rest) -> Result<(), Memory>
    ensures { OnOk result (out.new ≡ out.old ++ rest_of door (number, rest.now)) }
{
    if usize::from(rest.door) == door {
        add_rest_line(out, number, rest)?;
    }
    Ok(())
}

/// A line for each rest of the handler of this door.
pub fn add_rests(out: &mut Text, door: usize, rests: &[Rest]) -> Result<(), Memory>
    ensures { OnOk result (out.new ≡ out.old ++ rests_text door rests.now) }
{
    for (number, rest) in rests.iter().enumerate() {
        add_rest(out, door, number, rest)?;
    }
    Ok(())
}
