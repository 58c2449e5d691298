//! Laws of the order by a key.
ghost use Rattle.buffer_rows.specs.Laws.{KeepsEachKey, OrderCommutesWithMap};

/// The order by a key is stable: the elements of each key are those of the list, in the same order.
pub fn law_keeps_each_key()
    ensures { KeepsEachKey }
{}

/// To change each element and then sort by a key is to sort by the key of the changed element and then change each.
pub fn law_order_commutes_with_map()
    ensures { OrderCommutesWithMap }
{}
