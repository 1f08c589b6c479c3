//! The table of names, made of the modules in asn1/: change those. What makes it says how it is written.

/// A node for each type, between empty lines: its name, and a row for each element that its contents may have.
pub const FIELDS: &[u8] = b"\
macdata
MacData 30 /MacData

pbes1params
Pbes1Params 30 /Pbes1Params

pbes2encryptionscheme
Pbes2EncryptionScheme 30 /Pbes2EncryptionScheme

pbes2keyderivationfunc
Pbes2KeyDerivationFunc 30 /Pbes2KeyDerivationFunc

pbes2params
Pbes2Params 30 /Pbes2Params

pbkdf2params
Pbkdf2Params 30 /Pbkdf2Params

pkcs12digestinfo
Pkcs12DigestInfo 30 /Pkcs12DigestInfo

pkcs12encryptionalgorithm
Pkcs12EncryptionAlgorithm 30 /Pkcs12EncryptionAlgorithm

file
File A2 /File~

moniker
Moniker A1 /SpcSerializedObject

spcattributeandoptionalvalue
SpcAttributeAndOptionalValue 30 /SpcAttributeAndOptionalValue

spcindirectdatacontent
SpcIndirectDataContent 30 /SpcIndirectDataContent

spclink
?SpcLink.url 80
?SpcLink.moniker A1 /SpcSerializedObject
?SpcLink.file A2 /SpcLink.file~

spcpeimagedata
SpcPeImageData 30 /SpcPeImageData

spcpeimageflags
SpcPeImageFlags 03

spcserializedobject
SpcSerializedObject 30 /SpcSerializedObject

spcsipinfo
SpcSipInfo 30 /SpcSipInfo

spcspopusinfo
SpcSpOpusInfo 30 /SpcSpOpusInfo

spcstring
?SpcString.unicode 80
?SpcString.ascii 81

spcuuid
SpcUuid 04

url
Url 80

cmsversion
CmsVersion 02

encapsulatedcontentinfo
EncapsulatedContentInfo 30 /EncapsulatedContentInfo

contentinfo
ContentInfo 30 /ContentInfo

encryptedcontentinfo
EncryptedContentInfo 30 /EncryptedContentInfo

envelopeddata
EnvelopedData 30 /EnvelopedData

generalprotectiondescriptor
GeneralProtectionDescriptor 30 /GeneralProtectionDescriptor

kekidentifier
KekIdentifier 30 /KekIdentifier

kekrecipientinfo
KekRecipientInfo 30 /KekRecipientInfo

originatorinfo
OriginatorInfo 30 /OriginatorInfo

otherkeyattribute
OtherKeyAttribute 30 /OtherKeyAttribute

protectiondescriptor
ProtectionDescriptor 30 /ProtectionDescriptor

recipientinfo
RecipientInfo A2 /KekRecipientInfo

pkcs7certificate
Pkcs7Certificate 30 /Pkcs7Certificate

signeddata
SignedData 30 /SignedData

signerinfo
SignerInfo 30 /SignerInfo

signersinfos
SignersInfos 31 /SignersInfos

unsignedattribute
UnsignedAttribute 30 /UnsignedAttribute

unsignedattributes
UnsignedAttributes A1 /UnsignedAttributes

attributes
Attributes A0 /Attributes

certificatechoices
?CertificateChoices.certificate 30 /rfc5280.Certificate
?CertificateChoices.other -

certificatelist
CertificateList 30 /CertificateList

certificateserialnumber
CertificateSerialNumber 02

certificateset
CertificateSet A0 /CertificateSet

digestalgorithmidentifier
DigestAlgorithmIdentifier 30 /AlgorithmIdentifier

digestalgorithmidentifiers
DigestAlgorithmIdentifiers 31 /DigestAlgorithmIdentifiers

issuerandserialnumber
IssuerAndSerialNumber 30 /IssuerAndSerialNumber

otherrevocationinfoformat
OtherRevocationInfoFormat 30 /OtherRevocationInfoFormat

revocationinfochoice
?RevocationInfoChoice.crl 30 /CertificateList
?RevocationInfoChoice.other A1 /OtherRevocationInfoFormat

revocationinfochoices
RevocationInfoChoices A1 /RevocationInfoChoices

revokedcertificate
RevokedCertificate 30 /RevokedCertificate

revokedcertificates
RevokedCertificates 30 /RevokedCertificates

signaturealgorithmidentifier
SignatureAlgorithmIdentifier 30 /AlgorithmIdentifier

signaturevalue
SignatureValue 04

signeridentifier
?SignerIdentifier.issuerAndSerialNumber 30 /IssuerAndSerialNumber
?SignerIdentifier.subjectKeyIdentifier 80

tbscertlist
TbsCertList 30 /TbsCertList

authenticatedsafecontentinfo
AuthenticatedSafeContentInfo 30 /AuthenticatedSafeContentInfo

certificatebag
CertificateBag 30 /CertificateBag

crlbag
CrlBag 30 /CrlBag

encryptedkeybag
EncryptedKeyBag 30 /EncryptedKeyBag

encryptedsafecontents
EncryptedSafeContents 30 /EncryptedSafeContents

parsedauthenticatedsafedatarepr
ParsedAuthenticatedSafeDataRepr 30 /ParsedAuthenticatedSafeDataRepr

pfx
Pfx 30 /Pfx

pkcs12attribute
Pkcs12Attribute 30 /Pkcs12Attribute

rawauthenticatedsafecontentinfo
RawAuthenticatedSafeContentInfo 30 /AuthenticatedSafeContentInfo

rawauthenticatedsafedatarepr
RawAuthenticatedSafeDataRepr -

rawpfx
RawPfx 30 /RawPfx

safebag
SafeBag 30 /SafeBag

safecontents
SafeContents 30 /SafeContents

safecontentscontentinfo
SafeContentsContentInfo 30 /SafeContentsContentInfo

secretbag
SecretBag 30 /SecretBag

certpolicy
CertPolicy 30 /CertPolicy

ctl
Ctl 30 /Ctl

ctlentry
CTLEntry 30 /CTLEntry

ctlentryattribute
CTLEntryAttribute 30 /CTLEntryAttribute

policyqualifier
PolicyQualifier 30 /PolicyQualifier

rootprogramchainpolicy
RootProgramChainPolicy 30 /RootProgramChainPolicy

Attribute
Attribute 30 /rfc5280.Attribute

AttributeType
AttributeType 06

AttributeValue
AttributeValue -

AttributeTypeAndValue
AttributeTypeAndValue 30 /rfc5280.AttributeTypeAndValue

DirectoryString
?DirectoryString.teletexString 14
?DirectoryString.printableString 13
?DirectoryString.universalString 1C
?DirectoryString.utf8String 0C
?DirectoryString.bmpString 1E

Name
Name.rdnSequence 30 /rfc5280.RDNSequence

RDNSequence
RDNSequence 30 /rfc5280.RDNSequence

RelativeDistinguishedName
RelativeDistinguishedName 31 /rfc5280.RelativeDistinguishedName

Certificate
Certificate 30 /rfc5280.Certificate

TBSCertificate
TBSCertificate 30 /rfc5280.TBSCertificate

rfc5280.Version
Version 02

CertificateSerialNumber
CertificateSerialNumber 02

Validity
Validity 30 /rfc5280.Validity

Time
?Time.utcTime 17
?Time.generalTime 18

UniqueIdentifier
UniqueIdentifier 03

SubjectPublicKeyInfo
SubjectPublicKeyInfo 30 /rfc5280.SubjectPublicKeyInfo

Extensions
Extensions 30 /rfc5280.Extensions

Extension
Extension 30 /rfc5280.Extension

CertificateList
CertificateList 30 /rfc5280.CertificateList

TBSCertList
TBSCertList 30 /rfc5280.TBSCertList

AlgorithmIdentifier
AlgorithmIdentifier 30 /rfc5280.AlgorithmIdentifier

AuthorityKeyIdentifier
AuthorityKeyIdentifier 30 /rfc5280.AuthorityKeyIdentifier

KeyIdentifier
KeyIdentifier 04

SubjectKeyIdentifier
SubjectKeyIdentifier 04

KeyUsage
KeyUsage 03

PrivateKeyUsagePeriod
PrivateKeyUsagePeriod 30 /rfc5280.PrivateKeyUsagePeriod

CertificatePolicies
CertificatePolicies 30 /rfc5280.CertificatePolicies

PolicyInformation
PolicyInformation 30 /rfc5280.PolicyInformation

CertPolicyId
CertPolicyId 06

PolicyQualifierInfo
PolicyQualifierInfo 30 /rfc5280.PolicyQualifierInfo

PolicyQualifierId
PolicyQualifierId 06

CPSuri
CPSuri 16

UserNotice
UserNotice 30 /rfc5280.UserNotice

NoticeReference
NoticeReference 30 /rfc5280.NoticeReference

DisplayText
?DisplayText.ia5String 16
?DisplayText.visibleString 1A
?DisplayText.bmpString 1E
?DisplayText.utf8String 0C

PolicyMappings
PolicyMappings 30 /rfc5280.PolicyMappings

SubjectAltName
SubjectAltName 30 /rfc5280.GeneralNames

GeneralNames
GeneralNames 30 /rfc5280.GeneralNames

GeneralName
?GeneralName.otherName A0 /rfc5280.AnotherName
?GeneralName.rfc822Name 81
?GeneralName.dNSName 82
?GeneralName.x400Address A3 /rfc5280.ORAddress
?GeneralName.directoryName A4 /rfc5280.GeneralName.directoryName~
?GeneralName.ediPartyName A5 /rfc5280.EDIPartyName
?GeneralName.uniformResourceIdentifier 86
?GeneralName.iPAddress 87
?GeneralName.registeredID 88

AnotherName
AnotherName 30 /rfc5280.AnotherName

ORAddress
ORAddress 30 /rfc5280.ORAddress

EDIPartyName
EDIPartyName 30 /rfc5280.EDIPartyName

IssuerAltName
IssuerAltName 30 /rfc5280.GeneralNames

SubjectDirectoryAttributes
SubjectDirectoryAttributes 30 /rfc5280.SubjectDirectoryAttributes

BasicConstraints
BasicConstraints 30 /rfc5280.BasicConstraints

NameConstraints
NameConstraints 30 /rfc5280.NameConstraints

GeneralSubtrees
GeneralSubtrees 30 /rfc5280.GeneralSubtrees

GeneralSubtree
GeneralSubtree 30 /rfc5280.GeneralSubtree

BaseDistance
BaseDistance 02

PolicyConstraints
PolicyConstraints 30 /rfc5280.PolicyConstraints

SkipCerts
SkipCerts 02

CRLDistributionPoints
CRLDistributionPoints 30 /rfc5280.CRLDistributionPoints

DistributionPoint
DistributionPoint 30 /rfc5280.DistributionPoint

DistributionPointName
?DistributionPointName.fullName A0 /rfc5280.GeneralNames
?DistributionPointName.nameRelativeToCRLIssuer A1 /rfc5280.RelativeDistinguishedName

ReasonFlags
ReasonFlags 03

ExtKeyUsageSyntax
ExtKeyUsageSyntax 30 /rfc5280.ExtKeyUsageSyntax

KeyPurposeId
KeyPurposeId 06

InhibitAnyPolicy
InhibitAnyPolicy 02

FreshestCRL
FreshestCRL 30 /rfc5280.CRLDistributionPoints

AuthorityInfoAccessSyntax
AuthorityInfoAccessSyntax 30 /rfc5280.AuthorityInfoAccessSyntax

AccessDescription
AccessDescription 30 /rfc5280.AccessDescription

SubjectInfoAccessSyntax
SubjectInfoAccessSyntax 30 /rfc5280.SubjectInfoAccessSyntax

CRLNumber
CRLNumber 02

BaseCRLNumber
BaseCRLNumber 02

IssuingDistributionPoint
IssuingDistributionPoint 30 /rfc5280.IssuingDistributionPoint

CRLReason
CRLReason 0A

CertificateIssuer
CertificateIssuer 30 /rfc5280.GeneralNames

InvalidityDate
InvalidityDate 18

TimeStampReq
TimeStampReq 30 /rfc3161.TimeStampReq

MessageImprint
MessageImprint 30 /rfc3161.MessageImprint

TSAPolicyId
TSAPolicyId 06

TimeStampResp
TimeStampResp 30 /rfc3161.TimeStampResp

PKIStatusInfo
PKIStatusInfo 30 /rfc3161.PKIStatusInfo

PKIStatus
PKIStatus 02

PKIFreeText
PKIFreeText 30 /rfc3161.PKIFreeText

PKIFailureInfo
PKIFailureInfo 03

TimeStampToken
TimeStampToken 30 /rfc3161.ContentInfo

ContentInfo
ContentInfo 30 /rfc3161.ContentInfo

TSTInfo
TSTInfo 30 /rfc3161.TSTInfo

Accuracy
Accuracy 30 /rfc3161.Accuracy

OCSPRequest
OCSPRequest 30 /rfc6960.OCSPRequest

TBSRequest
TBSRequest 30 /rfc6960.TBSRequest

Signature
Signature 30 /rfc6960.Signature

rfc6960.Version
Version 02

Request
Request 30 /rfc6960.Request

CertID
CertID 30 /rfc6960.CertID

OCSPResponse
OCSPResponse 30 /rfc6960.OCSPResponse

OCSPResponseStatus
OCSPResponseStatus 0A

ResponseBytes
ResponseBytes 30 /rfc6960.ResponseBytes

BasicResponseBytes
BasicResponseBytes 30 /rfc6960.BasicResponseBytes

BasicOCSPResponse
BasicOCSPResponse 30 /rfc6960.BasicOCSPResponse

ResponseData
ResponseData 30 /rfc6960.ResponseData

ResponderID
?ResponderID.byName A1 /rfc6960.ResponderID.byName~
?ResponderID.byKey A2 /rfc6960.ResponderID.byKey~

KeyHash
KeyHash 04

SingleResponse
SingleResponse 30 /rfc6960.SingleResponse

CertStatus
?CertStatus.good 80
?CertStatus.revoked A1 /rfc6960.RevokedInfo
?CertStatus.unknown 82

RevokedInfo
RevokedInfo 30 /rfc6960.RevokedInfo

UnknownInfo
UnknownInfo 05

ServiceLocator
ServiceLocator 30 /rfc6960.ServiceLocator

CrlID
CrlID 30 /rfc6960.CrlID

AcceptableResponses
AcceptableResponses 30 /rfc6960.AcceptableResponses

ArchiveCutoff
ArchiveCutoff 18

PreferredSignatureAlgorithms
PreferredSignatureAlgorithms 30 /rfc6960.PreferredSignatureAlgorithms

PreferredSignatureAlgorithm
PreferredSignatureAlgorithm 30 /rfc6960.PreferredSignatureAlgorithm

/MacData
.mac 30 /Pkcs12DigestInfo
.macSalt 04
?.iterations 02

/Pkcs12DigestInfo
.digestAlgorithm 30 /AlgorithmIdentifier
.digest 04

/AlgorithmIdentifier
.algorithm 06
?.parameters -

/Pbes1Params
.salt 04
.iterations 02

/Pbes2EncryptionScheme
.algorithm 06
?.parameters.aes128Cbc 04 - =608648016503040102
?.parameters.aes192Cbc 04 - =608648016503040116
?.parameters.aes256Cbc 04 - =60864801650304012A
?.parameters -

/Pbes2KeyDerivationFunc
.algorithm 06
?.parameters.pbkdf2 30 /Pbkdf2Params =2A864886F70D01050C
?.parameters -

/Pbkdf2Params
?.salt.specified 04
?.salt.otherSource 30 /AlgorithmIdentifier
.iterationCount 02
?.keyLength 02
?.prf 30 /AlgorithmIdentifier

/Pbes2Params
.keyDerivationFunc 30 /Pbes2KeyDerivationFunc
.encryptionScheme 30 /Pbes2EncryptionScheme

/Pkcs12EncryptionAlgorithm
.algorithm 06
?.parameters.pbes2 30 /Pbes2Params =2A864886F70D01050D
?.parameters.shaAnd3Key3DesCbc 30 /Pbes1Params =2A864886F70D010C0103
?.parameters.shaAnd40BitRc2Cbc 30 /Pbes1Params =2A864886F70D010C0106
?.parameters -

/File~
?~.unicode 80
?~.ascii 81

/SpcSerializedObject
.classId 04
.serializedData 04 /SpcSerializedObject.serializedData~

/SpcSerializedObject.serializedData~
~ 31 /PageHashSets

/PageHashSets
?[] 30 /PageHashes

/PageHashes
.type 06
.value 31 /PageHashes.value

/PageHashes.value
?[] 04

/SpcAttributeAndOptionalValue
.type 06
?.value.peImage 30 /SpcPeImageData =2B06010401823702010F
?.value.sipInfo 30 /SpcSipInfo =2B06010401823702011E

/SpcPeImageData
?.flags 03
.file A0 /SpcPeImageData.file~

/SpcPeImageData.file~
?~.url 80
?~.moniker A1 /SpcSerializedObject
?~.file A2 /SpcLink.file~

/SpcLink.file~
?~.unicode 80
?~.ascii 81

/SpcSipInfo
.version 02
.uuid 04
.reserved1 02
.reserved2 02
.reserved3 02
.reserved4 02
.reserved5 02

/SpcIndirectDataContent
.data 30 /SpcAttributeAndOptionalValue
.messageDigest 30 /DigestInfo

/DigestInfo
.digestAlgorithm 30 /AlgorithmIdentifier
.digest 04

/SpcSpOpusInfo
?.programName A0 /SpcSpOpusInfo.programName~
?.moreInfo A1 /SpcSpOpusInfo.moreInfo~

/SpcSpOpusInfo.programName~
?~.unicode 80
?~.ascii 81

/SpcSpOpusInfo.moreInfo~
?~.url 80
?~.moniker A1 /SpcSerializedObject
?~.file A2 /SpcLink.file~

/EncapsulatedContentInfo
.eContentType 06
?.eContent A0 /EncapsulatedContentInfo.eContent~

/EncapsulatedContentInfo.eContent~
?~.indirectData 30 /SpcIndirectDataContent =2B060104018237020104
?~.trustList 30 /Ctl =2B0601040182370A01
?~.data 04 - =2A864886F70D010701
?~.tstInfo 04 /EncapsulatedContentInfo.eContent.tstInfo~ =2A864886F70D0109100104
?~ -

/Ctl
.subjectUsage 30 /Ctl.subjectUsage
.sequenceNumber 02
.thisUpdate 17
.subjectAlgorithm 30 /AlgorithmIdentifier
.trustedSubjects 30 /Ctl.trustedSubjects

/Ctl.subjectUsage
?[] 06

/Ctl.trustedSubjects
?[] 30 /CTLEntry

/CTLEntry
.subjectIdentifier 04
.subjectAttributes 31 /CTLEntry.subjectAttributes

/CTLEntry.subjectAttributes
?[] 30 /CTLEntryAttribute

/CTLEntryAttribute
.type 06
.values 31 /CTLEntryAttribute.values

/CTLEntryAttribute.values
?[].certAuthRootSha256Hash 04 - =2B0601040182370A0B62
?[].certDisallowedFileTime 04 - =2B0601040182370A0B68
?[].certFriendlyName 04 - =2B0601040182370A0B0B
?[].certKeyIdentifier 04 - =2B0601040182370A0B14
?[].certSubjectNameMd5Hash 04 - =2B0601040182370A0B1D
?[].unknownReserved126 04 - =2B0601040182370A0B7E
?[].disallowedEnhkeyUsage 04 /CTLEntryAttribute.values[].disallowedEnhkeyUsage~ =2B0601040182370A0B7A
?[].certEnhkeyUsage 04 /CTLEntryAttribute.values[].certEnhkeyUsage~ =2B0601040182370A0B09
?[].unknownReserved127 04 /CTLEntryAttribute.values[].unknownReserved127~ =2B0601040182370A0B7F
?[].certRootProgramChainPolicy 04 /CTLEntryAttribute.values[].certRootProgramChainPolicy~ =2B0601040182370A0B69
?[].certRootProgramCertPolicies 04 /CTLEntryAttribute.values[].certRootProgramCertPolicies~ =2B0601040182370A0B53
?[] -

/CTLEntryAttribute.values[].disallowedEnhkeyUsage~
~ 30 /KeyPurposes

/KeyPurposes
?[] 06

/CTLEntryAttribute.values[].certEnhkeyUsage~
~ 30 /KeyPurposes

/CTLEntryAttribute.values[].unknownReserved127~
~ 30 /KeyPurposes

/CTLEntryAttribute.values[].certRootProgramChainPolicy~
~ 30 /RootProgramChainPolicy

/RootProgramChainPolicy
.oid 06

/CTLEntryAttribute.values[].certRootProgramCertPolicies~
~ 30 /CertPolicies

/CertPolicies
?[] 30 /CertPolicy

/CertPolicy
.oid 06
.qualifier 30 /CertPolicy.qualifier

/CertPolicy.qualifier
?[] 30 /PolicyQualifier

/PolicyQualifier
.oid 06
.bits 03

/EncapsulatedContentInfo.eContent.tstInfo~
~ 30 /TstInfo

/TstInfo
.version 02
.policy 06
.messageImprint 30 /DigestInfo
.serialNumber 02
.genTime 18
?.accuracy 30 /TstInfo.accuracy
?.ordering 01
?.nonce 02
?.tsa A0 /TstInfo.tsa~
?.extensions A1 /TstInfo.extensions

/TstInfo.accuracy
?[] -

/TstInfo.tsa~
~ -

/TstInfo.extensions
?[] 30 /Extension

/Extension
.extnID 06
?.critical 01
.extnValue 04

/ContentInfo
.contentType 06
.content A0 /ContentInfo.content~

/ContentInfo.content~
?~.data 04 - =2A864886F70D010701
?~.signedData 30 /SignedData =2A864886F70D010702
?~.envelopedData 30 /EnvelopedData =2A864886F70D010703
?~ -

/SignedData
.version 02
.digestAlgorithms 31 /DigestAlgorithmIdentifiers
.encapContentInfo 30 /EncapsulatedContentInfo
?.certificates A0 /CertificateSet
?.crls A1 /RevocationInfoChoices
.signerInfos 31 /SignersInfos

/DigestAlgorithmIdentifiers
?[] 30 /AlgorithmIdentifier

/CertificateSet
?[].certificate 30 /rfc5280.Certificate
?[].other -

/rfc5280.Certificate
.tbsCertificate 30 /rfc5280.TBSCertificate
.signatureAlgorithm 30 /rfc5280.AlgorithmIdentifier
.signature 03

/rfc5280.TBSCertificate
?.version A0 /rfc5280.TBSCertificate.version~
.serialNumber 02
.signature 30 /rfc5280.AlgorithmIdentifier
.issuer.rdnSequence 30 /rfc5280.RDNSequence
.validity 30 /rfc5280.Validity
.subject.rdnSequence 30 /rfc5280.RDNSequence
.subjectPublicKeyInfo 30 /rfc5280.SubjectPublicKeyInfo
?.issuerUniqueID 81
?.subjectUniqueID 82
?.extensions A3 /rfc5280.TBSCertificate.extensions~

/rfc5280.TBSCertificate.version~
~ 02

/rfc5280.AlgorithmIdentifier
.algorithm 06
?.parameters -

/rfc5280.RDNSequence
?[] 31 /rfc5280.RelativeDistinguishedName

/rfc5280.RelativeDistinguishedName
?[] 30 /rfc5280.AttributeTypeAndValue

/rfc5280.AttributeTypeAndValue
.type 06
.value -

/rfc5280.Validity
?.notBefore.utcTime 17
?.notBefore.generalTime 18
?.notAfter.utcTime 17
?.notAfter.generalTime 18

/rfc5280.SubjectPublicKeyInfo
.algorithm 30 /rfc5280.AlgorithmIdentifier
.subjectPublicKey 03

/rfc5280.TBSCertificate.extensions~
~ 30 /rfc5280.Extensions

/rfc5280.Extensions
?[] 30 /rfc5280.Extension

/rfc5280.Extension
.extnID 06
?.critical 01
.extnValue 04

/RevocationInfoChoices
?[].crl 30 /CertificateList
?[].other A1 /OtherRevocationInfoFormat

/CertificateList
.tbsCertList 30 /TbsCertList
.signatureAlgorithm 30 /AlgorithmIdentifier
.signatureValue 03

/TbsCertList
?.version 02
.signature 30 /AlgorithmIdentifier
.issuer 30 /Name
?.thisUpdate.utcTime 17
?.thisUpdate.generalTime 18
?.nextUpdate.utcTime 17
?.nextUpdate.generalTime 18
?.revokedCertificates 30 /RevokedCertificates
?.crlExtensions A0 /TbsCertList.crlExtensions~

/Name
?[] 31 /Name[]

/Name[]
?[] 30 /NameValue

/NameValue
.type 06
.value -

/RevokedCertificates
?[] 30 /RevokedCertificate

/RevokedCertificate
.userCertificate 02
?.revocationDate.utcTime 17
?.revocationDate.generalTime 18
?.crlEntryExtensions 30 /Extensions

/Extensions
?[] 30 /Extension

/TbsCertList.crlExtensions~
~ 30 /Extensions

/OtherRevocationInfoFormat
.otherRevInfoFormat 06
.otherRevInfo 05

/SignersInfos
?[] 30 /SignerInfo

/SignerInfo
.version 02
?.sid.issuerAndSerialNumber 30 /IssuerAndSerialNumber
?.sid.subjectKeyIdentifier 80
.digestAlgorithm 30 /AlgorithmIdentifier
?.signedAttrs A0 /Attributes
.signatureAlgorithm 30 /AlgorithmIdentifier
.signature 04
?.unsignedAttrs A1 /UnsignedAttributes

/IssuerAndSerialNumber
.issuer 30 /Name
.serialNumber 02

/Attributes
?[] 30 /Attribute

/Attribute
.attrType 06
.attrValues 31 /Attribute.attrValues

/Attribute.attrValues
?[].contentType 06 - =2A864886F70D010903
?[].messageDigest 04 - =2A864886F70D010904
?[].signingTime.utcTime 17 - =2A864886F70D010905
?[].signingTime.generalTime 18 - =2A864886F70D010905
?[].spOpusInfo 30 /SpcSpOpusInfo =2B06010401823702010C
?[] -

/UnsignedAttributes
?[] 30 /UnsignedAttribute

/UnsignedAttribute
.attrType 06
.attrValues 31 /UnsignedAttribute.attrValues

/UnsignedAttribute.attrValues
?[].msCounterSign 30 /Pkcs7Certificate =2B060104018237030301
?[].counterSignature 30 /SignerInfo =2A864886F70D010906
?[].nestedSignature 30 /Pkcs7Certificate =2B060104018237020401
?[] -

/Pkcs7Certificate
.contentType 06
.content A0 /Pkcs7Certificate.content~

/Pkcs7Certificate.content~
~ 30 /SignedData

/EnvelopedData
.version 02
?.originatorInfo A0 /OriginatorInfo
.recipientInfos 31 /EnvelopedData.recipientInfos
.encryptedContentInfo 30 /EncryptedContentInfo
?.unprotectedAttrs A1 /EnvelopedData.unprotectedAttrs

/OriginatorInfo
?.certs A0 /CertificateSet
?.crls A1 /RevocationInfoChoices

/EnvelopedData.recipientInfos
?[] A2 /KekRecipientInfo

/KekRecipientInfo
.version 02
.kekid 30 /KekIdentifier
.keyEncryptionAlgorithm 30 /AlgorithmIdentifier
.encryptedKey 04

/KekIdentifier
.keyIdentifier 04
?.date 18
?.other 30 /OtherKeyAttribute

/OtherKeyAttribute
.keyAttrId 06
?.keyAttr -

/EncryptedContentInfo
.contentType 06
.contentEncryptionAlgorithm 30 /AlgorithmIdentifier
?.encryptedContent 80

/EnvelopedData.unprotectedAttrs
?[] 30 /Attribute

/GeneralProtectionDescriptor
.descriptorType 06
.descriptors 30 /GeneralProtectionDescriptor.descriptors

/GeneralProtectionDescriptor.descriptors
?[] 30 /GeneralProtectionDescriptor.descriptors[]

/GeneralProtectionDescriptor.descriptors[]
?[] 30 /ProtectionDescriptor

/ProtectionDescriptor
.descriptorType 0C
.descriptorValue 0C

/AuthenticatedSafeContentInfo
.contentType 06
?.content A0 /AuthenticatedSafeContentInfo.content~

/AuthenticatedSafeContentInfo.content~
?~.data 04 /AuthenticatedSafeContentInfo.content.data~ =2A864886F70D010701
?~ -

/AuthenticatedSafeContentInfo.content.data~
~ 30 /ParsedAuthenticatedSafeDataRepr

/ParsedAuthenticatedSafeDataRepr
?[] 30 /SafeContentsContentInfo

/SafeContentsContentInfo
.contentType 06
?.content A0 /SafeContentsContentInfo.content~

/SafeContentsContentInfo.content~
?~.data 04 /SafeContentsContentInfo.content.data~ =2A864886F70D010701
?~.encryptedData 30 /EncryptedSafeData =2A864886F70D010706
?~ -

/SafeContentsContentInfo.content.data~
~ 30 /SafeContents

/SafeContents
?[] 30 /SafeBag

/SafeBag
.bagId 06
.bagValue A0 /SafeBag.bagValue~
?.bagAttributes 31 /SafeBag.bagAttributes

/SafeBag.bagValue~
?~.keyBag - - =2A864886F70D010C0A0101
?~.pkcs8ShroudedKeyBag 30 /EncryptedKeyBag =2A864886F70D010C0A0102
?~.certBag 30 /CertificateBag =2A864886F70D010C0A0103
?~.crlBag 30 /CrlBag =2A864886F70D010C0A0104
?~.secretBag 30 /SecretBag =2A864886F70D010C0A0105
?~.safeContentsBag 30 /SafeContents =2A864886F70D010C0A0106
?~ -

/EncryptedKeyBag
.encryptionAlgorithm 30 /Pkcs12EncryptionAlgorithm
.encryptedData 04

/CertificateBag
.certId 06
.certValue A0 /CertificateBag.certValue~

/CertificateBag.certValue~
?~.x509Certificate 04 /CertificateBag.certValue.x509Certificate~ =2A864886F70D01091601
?~ -

/CertificateBag.certValue.x509Certificate~
~ 30 /rfc5280.Certificate

/CrlBag
.crlId 06
.crlValue A0 /CrlBag.crlValue~

/CrlBag.crlValue~
?~.x509CRL 04 /CrlBag.crlValue.x509CRL~ =2A864886F70D01091701
?~ -

/CrlBag.crlValue.x509CRL~
~ 30 /CertificateList

/SecretBag
.secretTypeId 06
.secretValue A0 /SecretBag.secretValue~

/SecretBag.secretValue~
~ -

/SafeBag.bagAttributes
?[] 30 /Pkcs12Attribute

/Pkcs12Attribute
.attrId 06
.attrValues 31 /Pkcs12Attribute.attrValues

/Pkcs12Attribute.attrValues
?[].friendlyName 1E - =2A864886F70D010914
?[].localKeyId 04 - =2A864886F70D010915
?[] -

/EncryptedSafeData
.version 02
.encryptedContentInfo 30 /EncryptedSafeContents

/EncryptedSafeContents
.contentType 06
.contentEncryptionAlgorithm 30 /Pkcs12EncryptionAlgorithm
?.encryptedContent 80

/Pfx
.version 02
.authSafe 30 /AuthenticatedSafeContentInfo
?.macData 30 /MacData

/RawPfx
.version 02
.authSafe 30 /AuthenticatedSafeContentInfo
?.macData 30 /MacData

/rfc5280.Attribute
.type 06
.values 31 /rfc5280.Attribute.values

/rfc5280.Attribute.values
?[] -

/rfc5280.CertificateList
.tbsCertList 30 /rfc5280.TBSCertList
.signatureAlgorithm 30 /rfc5280.AlgorithmIdentifier
.signature 03

/rfc5280.TBSCertList
?.version 02
.signature 30 /rfc5280.AlgorithmIdentifier
.issuer.rdnSequence 30 /rfc5280.RDNSequence
?.thisUpdate.utcTime 17
?.thisUpdate.generalTime 18
?.nextUpdate.utcTime 17
?.nextUpdate.generalTime 18
?.revokedCertificates 30 /rfc5280.TBSCertList.revokedCertificates
?.crlExtensions A0 /rfc5280.TBSCertList.crlExtensions~

/rfc5280.TBSCertList.revokedCertificates
?[] 30 /rfc5280.TBSCertList.revokedCertificates[]

/rfc5280.TBSCertList.revokedCertificates[]
.userCertificate 02
?.revocationDate.utcTime 17
?.revocationDate.generalTime 18
?.crlEntryExtensions 30 /rfc5280.Extensions

/rfc5280.TBSCertList.crlExtensions~
~ 30 /rfc5280.Extensions

/rfc5280.AuthorityKeyIdentifier
?.keyIdentifier 80
?.authorityCertIssuer A1 /rfc5280.GeneralNames
?.authorityCertSerialNumber 82

/rfc5280.GeneralNames
?[].otherName A0 /rfc5280.AnotherName
?[].rfc822Name 81
?[].dNSName 82
?[].x400Address A3 /rfc5280.ORAddress
?[].directoryName A4 /rfc5280.GeneralName.directoryName~
?[].ediPartyName A5 /rfc5280.EDIPartyName
?[].uniformResourceIdentifier 86
?[].iPAddress 87
?[].registeredID 88

/rfc5280.AnotherName
.type-id 06
.value A0 /rfc5280.AnotherName.value~

/rfc5280.AnotherName.value~
~ -

/rfc5280.ORAddress
?[] -

/rfc5280.GeneralName.directoryName~
~.rdnSequence 30 /rfc5280.RDNSequence

/rfc5280.EDIPartyName
?.nameAssigner A0 /rfc5280.EDIPartyName.nameAssigner~
.partyName A1 /rfc5280.EDIPartyName.partyName~

/rfc5280.EDIPartyName.nameAssigner~
?~.teletexString 14
?~.printableString 13
?~.universalString 1C
?~.utf8String 0C
?~.bmpString 1E

/rfc5280.EDIPartyName.partyName~
?~.teletexString 14
?~.printableString 13
?~.universalString 1C
?~.utf8String 0C
?~.bmpString 1E

/rfc5280.PrivateKeyUsagePeriod
?.notBefore 80
?.notAfter 81

/rfc5280.CertificatePolicies
?[] 30 /rfc5280.PolicyInformation

/rfc5280.PolicyInformation
.policyIdentifier 06
?.policyQualifiers 30 /rfc5280.PolicyInformation.policyQualifiers

/rfc5280.PolicyInformation.policyQualifiers
?[] 30 /rfc5280.PolicyQualifierInfo

/rfc5280.PolicyQualifierInfo
.policyQualifierId 06
.qualifier -

/rfc5280.UserNotice
?.noticeRef 30 /rfc5280.NoticeReference
?.explicitText.ia5String 16
?.explicitText.visibleString 1A
?.explicitText.bmpString 1E
?.explicitText.utf8String 0C

/rfc5280.NoticeReference
?.organization.ia5String 16
?.organization.visibleString 1A
?.organization.bmpString 1E
?.organization.utf8String 0C
.noticeNumbers 30 /rfc5280.NoticeReference.noticeNumbers

/rfc5280.NoticeReference.noticeNumbers
?[] 02

/rfc5280.PolicyMappings
?[] 30 /rfc5280.PolicyMappings[]

/rfc5280.PolicyMappings[]
.issuerDomainPolicy 06
.subjectDomainPolicy 06

/rfc5280.SubjectDirectoryAttributes
?[] 30 /rfc5280.Attribute

/rfc5280.BasicConstraints
?.cA 01
?.pathLenConstraint 02

/rfc5280.NameConstraints
?.permittedSubtrees A0 /rfc5280.GeneralSubtrees
?.excludedSubtrees A1 /rfc5280.GeneralSubtrees

/rfc5280.GeneralSubtrees
?[] 30 /rfc5280.GeneralSubtree

/rfc5280.GeneralSubtree
?.base.otherName A0 /rfc5280.AnotherName
?.base.rfc822Name 81
?.base.dNSName 82
?.base.x400Address A3 /rfc5280.ORAddress
?.base.directoryName A4 /rfc5280.GeneralName.directoryName~
?.base.ediPartyName A5 /rfc5280.EDIPartyName
?.base.uniformResourceIdentifier 86
?.base.iPAddress 87
?.base.registeredID 88
?.minimum 80
?.maximum 81

/rfc5280.PolicyConstraints
?.requireExplicitPolicy 80
?.inhibitPolicyMapping 81

/rfc5280.CRLDistributionPoints
?[] 30 /rfc5280.DistributionPoint

/rfc5280.DistributionPoint
?.distributionPoint A0 /rfc5280.DistributionPoint.distributionPoint~
?.reasons 81
?.cRLIssuer A2 /rfc5280.GeneralNames

/rfc5280.DistributionPoint.distributionPoint~
?~.fullName A0 /rfc5280.GeneralNames
?~.nameRelativeToCRLIssuer A1 /rfc5280.RelativeDistinguishedName

/rfc5280.ExtKeyUsageSyntax
?[] 06

/rfc5280.AuthorityInfoAccessSyntax
?[] 30 /rfc5280.AccessDescription

/rfc5280.AccessDescription
.accessMethod 06
?.accessLocation.otherName A0 /rfc5280.AnotherName
?.accessLocation.rfc822Name 81
?.accessLocation.dNSName 82
?.accessLocation.x400Address A3 /rfc5280.ORAddress
?.accessLocation.directoryName A4 /rfc5280.GeneralName.directoryName~
?.accessLocation.ediPartyName A5 /rfc5280.EDIPartyName
?.accessLocation.uniformResourceIdentifier 86
?.accessLocation.iPAddress 87
?.accessLocation.registeredID 88

/rfc5280.SubjectInfoAccessSyntax
?[] 30 /rfc5280.AccessDescription

/rfc5280.IssuingDistributionPoint
?.distributionPoint A0 /rfc5280.IssuingDistributionPoint.distributionPoint~
?.onlyContainsUserCerts 81
?.onlyContainsCACerts 82
?.onlySomeReasons 83
?.indirectCRL 84
?.onlyContainsAttributeCerts 85

/rfc5280.IssuingDistributionPoint.distributionPoint~
?~.fullName A0 /rfc5280.GeneralNames
?~.nameRelativeToCRLIssuer A1 /rfc5280.RelativeDistinguishedName

/rfc3161.TimeStampReq
.version 02
.messageImprint 30 /rfc3161.MessageImprint
?.reqPolicy 06
?.nonce 02
?.certReq 01
?.extensions A0 /rfc5280.Extensions

/rfc3161.MessageImprint
.hashAlgorithm 30 /rfc5280.AlgorithmIdentifier
.hashedMessage 04

/rfc3161.TimeStampResp
.status 30 /rfc3161.PKIStatusInfo
?.timeStampToken 30 /rfc3161.ContentInfo

/rfc3161.PKIStatusInfo
.status 02
?.statusString 30 /rfc3161.PKIFreeText
?.failInfo 03

/rfc3161.PKIFreeText
?[] 0C

/rfc3161.ContentInfo
.contentType 06
.content A0 /rfc3161.ContentInfo.content~

/rfc3161.ContentInfo.content~
~ -

/rfc3161.TSTInfo
.version 02
.policy 06
.messageImprint 30 /rfc3161.MessageImprint
.serialNumber 02
.genTime 18
?.accuracy 30 /rfc3161.Accuracy
?.ordering 01
?.nonce 02
?.tsa A0 /rfc3161.TSTInfo.tsa~
?.extensions A1 /rfc5280.Extensions

/rfc3161.Accuracy
?.seconds 02
?.millis 80
?.micros 81

/rfc3161.TSTInfo.tsa~
?~.otherName A0 /rfc5280.AnotherName
?~.rfc822Name 81
?~.dNSName 82
?~.x400Address A3 /rfc5280.ORAddress
?~.directoryName A4 /rfc5280.GeneralName.directoryName~
?~.ediPartyName A5 /rfc5280.EDIPartyName
?~.uniformResourceIdentifier 86
?~.iPAddress 87
?~.registeredID 88

/rfc6960.OCSPRequest
.tbsRequest 30 /rfc6960.TBSRequest
?.optionalSignature A0 /rfc6960.OCSPRequest.optionalSignature~

/rfc6960.TBSRequest
?.version A0 /rfc6960.TBSRequest.version~
?.requestorName A1 /rfc6960.TBSRequest.requestorName~
.requestList 30 /rfc6960.TBSRequest.requestList
?.requestExtensions A2 /rfc6960.TBSRequest.requestExtensions~

/rfc6960.TBSRequest.version~
~ 02

/rfc6960.TBSRequest.requestorName~
?~.otherName A0 /rfc5280.AnotherName
?~.rfc822Name 81
?~.dNSName 82
?~.x400Address A3 /rfc5280.ORAddress
?~.directoryName A4 /rfc5280.GeneralName.directoryName~
?~.ediPartyName A5 /rfc5280.EDIPartyName
?~.uniformResourceIdentifier 86
?~.iPAddress 87
?~.registeredID 88

/rfc6960.TBSRequest.requestList
?[] 30 /rfc6960.Request

/rfc6960.Request
.reqCert 30 /rfc6960.CertID
?.singleRequestExtensions A0 /rfc6960.Request.singleRequestExtensions~

/rfc6960.CertID
.hashAlgorithm 30 /rfc5280.AlgorithmIdentifier
.issuerNameHash 04
.issuerKeyHash 04
.serialNumber 02

/rfc6960.Request.singleRequestExtensions~
~ 30 /rfc5280.Extensions

/rfc6960.TBSRequest.requestExtensions~
~ 30 /rfc5280.Extensions

/rfc6960.OCSPRequest.optionalSignature~
~ 30 /rfc6960.Signature

/rfc6960.Signature
.signatureAlgorithm 30 /rfc5280.AlgorithmIdentifier
.signature 03
?.certs A0 /rfc6960.Signature.certs~

/rfc6960.Signature.certs~
~ 30 /rfc6960.Signature.certs

/rfc6960.Signature.certs
?[] 30 /rfc5280.Certificate

/rfc6960.OCSPResponse
.responseStatus 0A
?.responseBytes A0 /rfc6960.OCSPResponse.responseBytes~

/rfc6960.OCSPResponse.responseBytes~
~ 30 /rfc6960.ResponseBytes

/rfc6960.ResponseBytes
.responseType 06
.response 04

/rfc6960.BasicResponseBytes
.responseType 06
.response 04 /rfc6960.BasicResponseBytes.response~

/rfc6960.BasicResponseBytes.response~
~ 30 /rfc6960.BasicOCSPResponse

/rfc6960.BasicOCSPResponse
.tbsResponseData 30 /rfc6960.ResponseData
.signatureAlgorithm 30 /rfc5280.AlgorithmIdentifier
.signature 03
?.certs A0 /rfc6960.BasicOCSPResponse.certs~

/rfc6960.ResponseData
?.version A0 /rfc6960.ResponseData.version~
?.responderID.byName A1 /rfc6960.ResponderID.byName~
?.responderID.byKey A2 /rfc6960.ResponderID.byKey~
.producedAt 18
.responses 30 /rfc6960.ResponseData.responses
?.responseExtensions A1 /rfc6960.ResponseData.responseExtensions~

/rfc6960.ResponseData.version~
~ 02

/rfc6960.ResponderID.byName~
~.rdnSequence 30 /rfc5280.RDNSequence

/rfc6960.ResponderID.byKey~
~ 04

/rfc6960.ResponseData.responses
?[] 30 /rfc6960.SingleResponse

/rfc6960.SingleResponse
.certID 30 /rfc6960.CertID
?.certStatus.good 80
?.certStatus.revoked A1 /rfc6960.RevokedInfo
?.certStatus.unknown 82
.thisUpdate 18
?.nextUpdate A0 /rfc6960.SingleResponse.nextUpdate~
?.singleExtensions A1 /rfc6960.SingleResponse.singleExtensions~

/rfc6960.RevokedInfo
.revocationTime 18
?.revocationReason A0 /rfc6960.RevokedInfo.revocationReason~

/rfc6960.RevokedInfo.revocationReason~
~ 0A

/rfc6960.SingleResponse.nextUpdate~
~ 18

/rfc6960.SingleResponse.singleExtensions~
~ 30 /rfc5280.Extensions

/rfc6960.ResponseData.responseExtensions~
~ 30 /rfc5280.Extensions

/rfc6960.BasicOCSPResponse.certs~
~ 30 /rfc6960.BasicOCSPResponse.certs

/rfc6960.BasicOCSPResponse.certs
?[] 30 /rfc5280.Certificate

/rfc6960.ServiceLocator
.issuer.rdnSequence 30 /rfc5280.RDNSequence
.locator 30 /rfc5280.AuthorityInfoAccessSyntax

/rfc6960.CrlID
?.crlUrl A0 /rfc6960.CrlID.crlUrl~
?.crlNum A1 /rfc6960.CrlID.crlNum~
?.crlTime A2 /rfc6960.CrlID.crlTime~

/rfc6960.CrlID.crlUrl~
~ 16

/rfc6960.CrlID.crlNum~
~ 02

/rfc6960.CrlID.crlTime~
~ 18

/rfc6960.AcceptableResponses
?[] 06

/rfc6960.PreferredSignatureAlgorithms
?[] 30 /rfc6960.PreferredSignatureAlgorithm

/rfc6960.PreferredSignatureAlgorithm
.sigIdentifier 30 /rfc5280.AlgorithmIdentifier
?.certIdentifier 30 /rfc5280.AlgorithmIdentifier
";
