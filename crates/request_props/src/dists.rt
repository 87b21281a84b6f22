//! What distributions are known by: how many segments have rows, and by whose hash the rows lie.
#![tactic(auto)]

ghost use Rattle.std.specs.Prelude.{◌≡◌, ◌↔◌};
ghost use Rattle.query_core.specs.declared.query.Query.{Query};
ghost use Rattle.request_props.specs.Dists.{class_of as the_class_of, class_asked as the_class_asked};
ghost use Rattle.request_props.specs.Dists.{list_given as the_list_given, list_asked as the_list_asked};
ghost use Rattle.request_props.specs.Satisfied.{ListMeets, Meets, Satisfies};
ghost use Rattle.request_props.specs.declared.given.Given.{Given as AnyGiven};
ghost use Rattle.request_props.specs.declared.given.GivenDist.{GivenDist as AnyGivenDist};
ghost use Rattle.request_props.specs.declared.request.Dist.{Dist as AnyDist};
ghost use Rattle.request_props.specs.declared.request.Request.{Request as AnyRequest};

use crate::given::GivenDist;
use crate::request::Dist;
use cost_units::Class;

/// The class of rows that are distributed so.
pub fn class_of(dist: GivenDist) -> Class
    ensures { result ≡ the_class_of dist }
{
    match dist {
        GivenDist::One => Class::One,
        GivenDist::Hashed(_) => Class::Spread,
        GivenDist::Random => Class::Spread,
        GivenDist::Copies => Class::Copies,
    }
}

/// The class of rows that are asked for so.
pub fn class_asked(dist: Dist) -> Class
    ensures { result ≡ the_class_asked dist }
{
    match dist {
        Dist::One => Class::One,
        Dist::Spread => Class::Spread,
        Dist::Copies => Class::Copies,
        Dist::Hashed(_) => Class::Spread,
    }
}

/// The list by whose hash the rows lie, if there is one.
pub fn list_given(dist: GivenDist) -> Option<u32>
    ensures { result ≡ the_list_given dist }
{
    match dist {
        GivenDist::One => None,
        GivenDist::Hashed(list) => Some(list),
        GivenDist::Random => None,
        GivenDist::Copies => None,
    }
}

/// The list by whose hash rows are asked for, if there is one.
pub fn list_asked(dist: Dist) -> Option<u32>
    ensures { result ≡ the_list_asked dist }
{
    match dist {
        Dist::One => None,
        Dist::Spread => None,
        Dist::Copies => None,
        Dist::Hashed(list) => Some(list),
    }
}

/// Rows are distributed as asked exactly where they are of the class that is asked for and lie by
/// the list, if one is asked for. So what satisfies a request is of its class.
pub fn classes_agree()
    ensures exact { (dist : AnyGivenDist) (asked : AnyDist) →
        Meets dist asked ↔ ((the_class_of dist ≡ the_class_asked asked)
        × ListMeets (the_list_given dist) (the_list_asked asked)) }
    ensures met { (dist : AnyGivenDist) (asked : AnyDist) → Meets dist asked →
        the_class_of dist ≡ the_class_asked asked }
    ensures satisfied { (q : Query) (given : AnyGiven) (wanted : AnyRequest) →
        Satisfies q given wanted → the_class_of given.dist ≡ the_class_asked wanted.dist }
{}
