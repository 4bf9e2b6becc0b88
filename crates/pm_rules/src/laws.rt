// Laws on chains and certificates.

ghost use Rattle.pm_rules.specs.Laws.{UsefulPartLeads, CertificateBounds, CertificateExcludes};

/// A chain without its rules that are not useful leads to the same names and weighs no more.
pub fn law_useful_part()
    ensures { UsefulPartLeads }
{}

/// Where a table is a certificate for a least cost, no chain of any rules weighs less.
pub fn law_certificate_bounds()
    ensures { CertificateBounds }
{}

/// Where a table is a certificate that there is no chain, no chain of any rules leads to the asked names.
pub fn law_certificate_excludes()
    ensures { CertificateExcludes }
{}
