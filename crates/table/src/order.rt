// The order of a table: which places it lists, and how one is put between them or taken from between them.
ghost use Rattle.std.specs.Prelude.{◌≡◌, ◌<◌, ◌≤◌, length};
ghost use Rattle.lists.specs.Find.{index_of, member};
ghost use Rattle.table_laws.specs.Table.{count, listed, lowest, place_below, entered, closed, freed};

// The places listed, a byte each.
pub(crate) fn listed(table: &[u8], places: usize) -> &[u8]
    requires { places < length table.now }
    ensures { result.now ≡ listed places table.now }
{
    let count = usize::from(table[0]).min(places);
    &table[1..1 + count]
}

// Where a place stands in the order, where it is listed.
pub(crate) fn index_of(table: &[u8], places: usize, place: usize) -> Option<usize>
    requires { places < length table.now }
    ensures { result ≡ place_below (length (listed places table.now)) (index_of place (listed places table.now)) }
{
    listed(table, places)
        .iter()
        .position(|listed| usize::from(*listed) == place)
}

// Whether a place is listed. The loop does not stop where it finds the place, as `any` would: how often it runs depends on the count alone, which the
// processor predicts well, and many places can be compared at a time.
pub(crate) fn lists(table: &[u8], places: usize, place: usize) -> bool
    requires { places < length table.now }
    ensures { result ≡ member place (listed places table.now) }
{
    let mut used = false;
    for listed in listed(table, places) {
        if usize::from(*listed) == place {
            used = true;
        }
    }
    used
}

// A place is put in at `at`; those from there on, `count` in all, move up.
pub(crate) fn open(order: &mut [u8], at: usize, count: usize, place: u8)
    requires { (at ≤ count) × (count < length order.old) }
    ensures { order.new ≡ entered count at place order.old }
{
    order.copy_within(at..count, at + 1);
    order[at] = place;
}

// What stands at `at` is taken out; those after it, up to `count`, move down.
pub(crate) fn close(order: &mut [u8], at: usize, count: usize)
    requires { (at ≤ count) × (count < length order.old) }
    ensures { order.new ≡ closed count at order.old }
{
    order.copy_within(at + 1..count + 1, at);
}

// A place is taken out of the order, where it is listed.
pub(crate) fn remove(table: &mut [u8], places: usize, place: usize)
    requires { (places < length table.old) × (count table.old ≤ places) }
    ensures { table.new ≡ freed places table.old place }
{
    let Some(at) = index_of(table, places, place) else {
        return;
    };
    let last = table[0] - 1;
    let end = 1 + places;
    close(&mut table[1..end], at, usize::from(last));
    table[0] = last;
}

// The lowest place that is not listed, where there is one: those listed are marked, and the first mark that is missing tells.
pub(crate) fn lowest_unlisted(table: &[u8], places: usize) -> Option<usize>
    requires { (places < length table.now) × (places ≤ 255) }
    ensures { result ≡ place_below places (lowest 0 places (listed places table.now)) }
{
    let mut marks = [false; 256];
    for place in listed(table, places) {
        marks[usize::from(*place)] = true;
    }
    marks[..places].iter().position(|marked| !*marked)
}
