ghost use Rattle.fv_house.specs.House.{decides, decides_object};

use fv_datum::Kind;
use fv_registry::Meaning;

/// The rules of the house by their numbers. Of data, 1 is `luhn` and 2 is `one_of`; of objects, 3 is
/// `not_after` and 4 is `sum_is`.
#[derive(Drop)]
pub struct House;

impl Meaning for House {
    ghost decides = { decides };

    ghost decides_object = { decides_object };

    fn named_fields(rule: u32) -> &'static [(&'static str, Kind)] {
        match rule {
            3 => &[("start", Kind::Date), ("end", Kind::Date)],
            4 => &[
                ("first", Kind::Integer),
                ("second", Kind::Integer),
                ("total", Kind::Integer),
            ],
            _ => &[],
        }
    }
}
