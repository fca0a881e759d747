ghost use Rattle.am_base.specs.Claims.{MembersStayBetween, ViewsRise};

/// A member of a list who is a member of a longer one too is a member all the way between.
pub fn members_stay_between()
    ensures { MembersStayBetween }
{}

/// Along a list neither the view nor the resilience falls.
pub fn views_rise()
    ensures { ViewsRise }
{}
