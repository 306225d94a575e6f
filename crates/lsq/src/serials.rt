//! What is done to both queues alike: the loads, and the stores. Each item has its serial.
ghost use Rattle.std.specs.Prelude.{◌≡◌, ℕ, not, ◌==◌, nat_lt, [], ◌∷◌, ◌++◌, true, vec_capacity};
ghost use Rattle.std.specs.List.{filter, find};
ghost use Rattle.std.specs.Option.{option_map};
ghost use Rattle.lsq.specs.Queues.{Rise};

/// What a queue holds: loads, or stores.
pub(crate) trait Queued {
    ghost serial: { Self → ℕ };

    /// The item's number in the order of renaming.
    fn serial(&self) -> u64
        ensures { result ≡ serial self.now };
}

// Whether the items are known to rise, with this one as the youngest.
pub(crate) fn rises_with<T: Queued>(rising: bool, items: &[T], item: &T) -> bool
    requires { rising ≡ true → Rise T.serial items.now }
    ensures { result ≡ true → Rise T.serial (items.now ++ item.now ∷ []) }
{
    if !rising {
        return false;
    }
    if items.len() == 0 {
        return true;
    }
    items[items.len() - 1].serial() < item.serial()
}

// Takes out the items from a serial on.
pub(crate) fn cut_items<T: Queued + Drop>(items: &mut Vec<T>, first: u64)
    ensures kept { items.new.items ≡ filter (λ x. nat_lt (T.serial x) first) items.old.items }
    ensures capacity { vec_capacity items.new ≡ vec_capacity items.old }
{
    items.retain(|item| item.serial() < first);
}

// Takes out the item with this serial, if there is one. Who retires is the oldest, so it is the first or isn't there.
fn pop_rising<T: Queued + Drop>(items: &mut Vec<T>, serial: u64)
    requires { Rise T.serial items.old.items }
    ensures kept { items.new.items ≡ filter (λ x. not (T.serial x == serial)) items.old.items }
    ensures capacity { vec_capacity items.new ≡ vec_capacity items.old }
{
    if items.len() == 0 {
        return;
    }
    let first = items[0].serial();
    if serial < first {
        return;
    }
    if first == serial {
        items.remove(0);
        return;
    }
    items.retain(|item| item.serial() != serial);
}

// Takes out the item with this serial, if there is one.
pub(crate) fn pop_item<T: Queued + Drop>(items: &mut Vec<T>, rising: bool, serial: u64)
    requires { rising ≡ true → Rise T.serial items.old.items }
    ensures kept { items.new.items ≡ filter (λ x. not (T.serial x == serial)) items.old.items }
    ensures capacity { vec_capacity items.new ≡ vec_capacity items.old }
{
    if rising {
        pop_rising(items, serial);
    } else {
        items.retain(|item| item.serial() != serial);
    }
}

// The item with this serial, if there is one. One below the oldest's isn't looked for.
fn find_rising<T: Queued>(items: &[T], serial: u64) -> Option<&T>
    requires { Rise T.serial items.now }
    ensures { option_map (λ x. x.now) result ≡ find (λ x. T.serial x == serial) items.now }
{
    if items.len() == 0 {
        return None;
    }
    if serial < items[0].serial() {
        return None;
    }
    let place = items.partition_point(|item| item.serial() < serial);
    if place >= items.len() {
        return None;
    }
    let item = &items[place];
    if item.serial() != serial {
        return None;
    }
    Some(item)
}

// The item with this serial, if there is one. Where the items rise it is looked for at this place first.
#[inline(always)]
pub(crate) fn find_near<T: Queued>(
    items: &[T],
    rising: bool,
    serial: u64,
    place: usize,
) -> Option<&T>
    requires { rising ≡ true → Rise T.serial items.now }
    ensures { option_map (λ x. x.now) result ≡ find (λ x. T.serial x == serial) items.now }
{
    if !rising {
        return items.iter().find(|item| item.serial() == serial);
    }
    match items.get(place) {
        Some(item) if item.serial() == serial => Some(item),
        _ => find_rising(items, serial),
    }
}
