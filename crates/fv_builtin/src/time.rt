//! Past, PastOrPresent, Future and FutureOrPresent: how a date or an instant stands to the
//! present. A date is compared with the day of the moment in UTC.
ghost use Rattle.std.specs.Prelude.{◌≡◌, not};
ghost use Rattle.std.specs.Ordering.{is_lt, is_gt};
ghost use Rattle.fv_datum.specs.Moments.{IsMoment};
ghost use Rattle.fv_datum.specs.View.{view};
ghost use Rattle.fv_builtin.specs.Passing.{passes};
ghost use Rattle.fv_builtin.specs.Times.{order_of};

use fv_datum::{Datum, day_of, today};
use std::cmp::Ordering;

/// Before, at or after the present, if the datum is a date or an instant.
fn order_of(now: i64, datum: &Datum) -> Option<Ordering>
    requires { IsMoment now }
    ensures { result ≡ order_of now (view datum.now) }
{
    match datum {
        Datum::Date(text) => match day_of(text.as_str()) {
            Some(day) => Some(day.cmp(&today(now))),
            None => None,
        },
        Datum::Instant(seconds) => Some(seconds.cmp(&now)),
        _ => None,
    }
}

pub(crate) fn is_past(now: i64, datum: &Datum) -> bool
    requires { IsMoment now }
    ensures { result ≡ passes is_lt (order_of now (view datum.now)) }
{
    match order_of(now, datum) {
        None => true,
        Some(order) => order.is_lt(),
    }
}

pub(crate) fn is_past_or_present(now: i64, datum: &Datum) -> bool
    requires { IsMoment now }
    ensures { result ≡ passes (λ o. not (is_gt o)) (order_of now (view datum.now)) }
{
    match order_of(now, datum) {
        None => true,
        Some(order) => !order.is_gt(),
    }
}

pub(crate) fn is_future(now: i64, datum: &Datum) -> bool
    requires { IsMoment now }
    ensures { result ≡ passes is_gt (order_of now (view datum.now)) }
{
    match order_of(now, datum) {
        None => true,
        Some(order) => order.is_gt(),
    }
}

pub(crate) fn is_future_or_present(now: i64, datum: &Datum) -> bool
    requires { IsMoment now }
    ensures { result ≡ passes (λ o. not (is_lt o)) (order_of now (view datum.now)) }
{
    match order_of(now, datum) {
        None => true,
        Some(order) => !order.is_lt(),
    }
}
