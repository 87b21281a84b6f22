ghost use Rattle.std.specs.Prelude.{◌≡◌, ◌↔◌, ◌<◌, Some};
ghost use Rattle.request_props.specs.declared.request.Request.{Request};
ghost use Rattle.request_props.specs.declared.request.Dist.{Dist as AnyDist};
ghost use Rattle.request_props.specs.Requests.{IsRequestInRange, IsDistInRange, dist_code as the_dist_code};
ghost use Rattle.request_props.specs.Requests.{code_of, HasCode, HasDistCode};
ghost use Rattle.request_props.specs.Requests.{dist_field as the_dist_field, order_field as the_order_field};

/// The distribution that is asked for.
#[derive(Clone, Copy, Debug, PartialEq, Eq)]
pub enum Dist {
    /// All rows on one segment.
    One,
    /// Each row on some segment.
    Spread,
    /// All rows on each segment.
    Copies,
    /// Each row on the segment that the hash of the numbered list says.
    Hashed(u32),
}

/// What is asked of a plan: a distribution, and the number of an order, or 0.
#[derive(Clone, Copy, Debug, PartialEq, Eq)]
pub struct Request {
    pub dist: Dist,
    pub order: u32,
}

/// The request's number.
#[inline(always)]
pub fn code(request: Request) -> u32
    requires { IsRequestInRange request }
    ensures { result ≡ code_of request }
{
    dist_code(request.dist) * 64 + request.order
}

/// The request of this number; none for a number that no request has.
pub fn request_of(code: u32) -> Option<Request>
    ensures exact { (r : Request) → HasCode r code ↔ (result ≡ Some r) }
{
    let order = order_field(code);
    if order > 60 {
        return None;
    }
    match dist_of(dist_field(code)) {
        Some(dist) => Some(Request { dist, order }),
        None => None,
    }
}

/// The number of the distribution in that of a request.
pub fn dist_field(code: u32) -> u32
    ensures { result ≡ the_dist_field code }
{
    code / 64
}

/// The number of the order in that of a request.
pub fn order_field(code: u32) -> u32
    ensures { result ≡ the_order_field code }
{
    code % 64
}

/// The distribution's number.
pub fn dist_code(dist: Dist) -> u32
    requires { IsDistInRange dist }
    ensures value { result ≡ the_dist_code dist }
    ensures few { result < 63 }
{
    match dist {
        Dist::One => 0,
        Dist::Spread => 1,
        Dist::Copies => 2,
        Dist::Hashed(list) => 3 + list,
    }
}

/// A distribution's number is one of 63, and no other distribution has it.
pub fn codes_are_one()
    ensures few { (dist : AnyDist) → IsDistInRange dist → the_dist_code dist < 63 }
    ensures one { (dist other : AnyDist) → the_dist_code dist ≡ the_dist_code other → dist ≡ other }
{}

fn dist_of(code: u32) -> Option<Dist>
    ensures exact { (d : AnyDist) → HasDistCode d code ↔ (result ≡ Some d) }
{
    match code {
        0 => Some(Dist::One),
        1 => Some(Dist::Spread),
        2 => Some(Dist::Copies),
        3..=62 => Some(Dist::Hashed(code - 3)),
        _ => None,
    }
}
