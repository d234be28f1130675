// Nearest lists in the host's memory. Every call but banavoge_nearest_begin tests all of the list first.
ghost use Rattle.std.specs.Prelude.{◌≡◌};
ghost use Rattle.lent_list_laws.specs.Layout.{list_length};
ghost use Rattle.lent_list_laws.specs.Calls.{Begins, Offers, Removes};
ghost use Rattle.lent_list.specs.Held.{held_at};
ghost use Rattle.banavoge_laws.specs.Answers.{ToldAs};
ghost use Rattle.banavoge_laws.specs.Nodes.{node_given};
ghost use Rattle.banavoge_laws.specs.Nearest.{key_given, done_code, kept_code, held_places, ShowsHeld};

#[unsafe(no_mangle)]
pub extern "C" fn banavoge_nearest_bytes() -> usize
    ensures { result ≡ list_length }
{
    banavoge::nearest_lists::banavoge_nearest_bytes()
}

#[unsafe(no_mangle)]
pub extern "C" fn banavoge_nearest_begin(list: &mut [u8], target: &[u8; 32], size: usize) -> i32
    ensures { ToldAs done_code (Begins (key_given target.now) size list.old list.new) result }
{
    banavoge::nearest_lists::banavoge_nearest_begin(list, target, size)
}

#[unsafe(no_mangle)]
pub extern "C" fn banavoge_nearest_offer(
    list: &mut [u8],
    family: u8,
    address: &[u8; 16],
    port: u16,
    key: &[u8; 32],
) -> i32
    ensures { ToldAs kept_code (Offers (node_given family address.now port key.now) list.old list.new) result }
{
    banavoge::nearest_lists::banavoge_nearest_offer(list, family, address, port, key)
}

#[unsafe(no_mangle)]
pub extern "C" fn banavoge_nearest_remove(list: &mut [u8], key: &[u8; 32]) -> i32
    ensures { ToldAs done_code (Removes (key_given key.now) list.old list.new) result }
{
    banavoge::nearest_lists::banavoge_nearest_remove(list, key)
}

#[unsafe(no_mangle)]
pub extern "C" fn banavoge_nearest_node(
    list: &[u8],
    index: usize,
    family: &mut u8,
    address: &mut [u8; 16],
    port: &mut u16,
    key: &mut [u8; 32],
) -> i32
    ensures { ShowsHeld (held_at list.now index) result (held_places family.old address.old port.old key.old) (held_places family.new address.new port.new key.new) }
{
    banavoge::nearest_lists::banavoge_nearest_node(list, index, family, address, port, key)
}
